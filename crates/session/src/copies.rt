ghost use Rattle.std.specs.Prelude.{◌≡◌, IfOk};

use event_core::Request;
use std::alloc::Global;
use std::collections::LinkedList;
use term_core::Memory;

// The same requests again, side by side.
pub(crate) fn copies(alloc: Global, requests: &LinkedList<Request>) -> Result<Vec<Request>, Memory>
    ensures { IfOk result (λ v. v.items ≡ requests.now) }
{
    let mut all = Vec::new(alloc);
    for request in requests.iter() {
        all.push(request.copied(alloc)?)?;
    }
    Ok(all)
}
