use crate::Id;

#[test]
fn ids_are_written_and_read(rt: HostRuntime) {
    let alloc = rt.alloc();
    let rows = [
        ((0, 0), 1, "00000000-0000-8000-8000-000000000001"),
        (
            (u64::MAX, u64::MAX),
            (1 << 48) - 1,
            "ffffffff-ffff-8fff-bfff-ffffffffffff",
        ),
        (
            (0x0123_4567_89ab_cdef, 0x8000_0000_0000_0000),
            42,
            "01234567-89ab-8cde-a000-00000000002a",
        ),
    ];
    for (words, serial, text) in rows {
        let id = Id::of(words, serial);
        assert_eq!(rt; id.serial(), serial);
        assert_eq!(rt; id.text(alloc).expect(&rt, "memory").as_str(), text);
        assert_eq!(rt; Id::read(text), Some(id));
    }
    assert_eq!(rt; Id::read("zzz"), None);
    assert_eq!(rt;
        Id::read("{00000000-0000-8000-8000-000000000001}"),
        Some(Id::of((0, 0), 1))
    );
}
