//! Lists that contracts see, and the error for want of memory.

use coding_base::{Bytes, OutOfMemory, Sequence};
use std::test::Fail;

#[test]
fn a_list_grows_and_comes_back(rt: HostRuntime) -> Result<(), Fail> {
    let alloc = rt.alloc();
    let mut bytes = Bytes::from_slice(alloc, &[18, 0])?;
    bytes.push(1)?;
    bytes.extend_from_slice(&[2, 3])?;
    assert_eq!(rt; bytes.len(), 5);
    assert_eq!(rt; bytes.as_slice(), [18, 0, 1, 2, 3].as_slice());
    let again = Sequence::from_vec(bytes.into_vec());
    assert_eq!(rt; [again.len(), Bytes::new(alloc).len()], [5, 0]);
    let text = OutOfMemory.to_string(alloc)?;
    assert_eq!(rt; text.as_str(), "out of memory");
    Ok(())
}
