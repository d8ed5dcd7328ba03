//! What a refused allocation is to each fault that has a Memory of its own.

use pg_backend::ScriptFault;
use pg_copy::{BinaryFault, OptionFault, RowFault, TextFault};
use pg_pair::PairFault;
use pgpipe_files::LineFault;
use std::alloc::AllocError;

#[test]
fn a_refused_allocation_is_memory(rt: HostRuntime) {
    assert_eq!(rt; TextFault::from(AllocError), TextFault::Memory);
    assert_eq!(rt; BinaryFault::from(AllocError), BinaryFault::Memory);
    assert_eq!(rt; OptionFault::from(AllocError), OptionFault::Memory);
    assert_eq!(rt; RowFault::from(AllocError), RowFault::Memory);
    assert_eq!(rt; ScriptFault::from(AllocError), ScriptFault::Memory);
    assert_eq!(rt; PairFault::from(AllocError), PairFault::Memory);
    assert_eq!(rt; LineFault::from(AllocError), LineFault::Memory);
}
