use crate::asked::{Asked, pull};
use crate::endpoint::Endpoint;
use crate::fault::{Param, RouteFault};
use crate::params::cut_target;
use crate::refusal::Refusal;
use crate::router::Routes;
use term_core::App;

#[test]
fn targets_are_routed(rt: HostRuntime) {
    let alloc = rt.alloc();
    let routes = Routes::new(alloc).expect(&rt, "memory");
    let (path, query) = cut_target(
        "/pengine/pull_response?x=%2F&max=07&id=00000000-0000-8000-8000-000000000001",
    );
    assert!(rt; matches!(routes.endpoint("GET", path), Ok(Endpoint::Pull)));
    assert!(rt;
        matches!(
            routes.endpoint("POST", path),
            Err(RouteFault::BadMethod { .. })
        )
    );
    assert!(rt; matches!(routes.endpoint("GET", "/nowhere"), Err(RouteFault::NoPath)));
    let max = match pull(alloc, query.as_bytes()) {
        Ok(Asked::Pull { id, max, .. }) => {
            assert!(rt; id.serial() == 1);
            max
        }
        _ => None,
    };
    assert!(rt; max == Some(7));
    let missing = pull(alloc, b"format=json-s&max=8");
    assert!(rt; matches!(missing, Err(RouteFault::BadParam(Param::Id))));
    let bad = pull(alloc, b"id=zzz");
    assert!(rt; matches!(bad, Err(RouteFault::BadId)));
}

#[test]
fn refusals_are_answered(rt: HostRuntime) {
    let alloc = rt.alloc();
    let rows = [
        (
            Refusal::BadParam(Param::Id),
            400,
            "{\"error\":\"bad_param\",\"name\":\"id\"}",
        ),
        (
            Refusal::Text { at: 4 },
            400,
            "{\"at\":4,\"error\":\"text\"}",
        ),
        (
            Refusal::NoSlot {
                app: App::School,
                live: 32,
            },
            503,
            "{\"application\":\"school\",\"error\":\"no_slot\",\"live\":32}",
        ),
        (
            Refusal::JournalFull {
                entries: 2,
                bytes: 9,
            },
            503,
            "{\"bytes\":9,\"entries\":2,\"error\":\"journal_full\"}",
        ),
        (Refusal::MailboxFull, 429, "{\"error\":\"mailbox_full\"}"),
    ];
    for (refusal, status, body) in rows {
        assert_eq!(rt; refusal.status(), status);
        assert_eq!(rt; refusal.body(alloc).expect(&rt, "memory").as_str(), body);
    }
}
