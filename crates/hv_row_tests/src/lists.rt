// Lists, by calls that change and read them.
use hv_row::Bytes;
use std::alloc::Global;
use std::test::Fail;

fn list(alloc: Global, bytes: &[u8]) -> Result<Bytes, Fail> {
    Ok(Bytes::from_slice(alloc, bytes)?)
}

#[test]
fn inserts_and_appends(rt: HostRuntime) -> Result<(), Fail> {
    let mut list = Bytes::from_slice(rt.alloc(), b"ac")?;
    list.insert(1, b'b')?;
    list.append(Bytes::from_slice(rt.alloc(), b"de")?)?;
    assert!(rt; list.as_slice() == b"abcde".as_slice());
    Ok(())
}

#[test]
fn replaces_an_item(rt: HostRuntime) -> Result<(), Fail> {
    let mut changed = Bytes::from_slice(rt.alloc(), b"abcde")?;
    assert!(rt; changed.replace(4, b'f') == b'e');
    assert!(rt; changed.equals(&list(rt.alloc(), b"abcdf")?));
    Ok(())
}

#[test]
fn reads_from_the_back(rt: HostRuntime) -> Result<(), Fail> {
    let list = list(rt.alloc(), b"abcdf")?;
    assert!(rt; list.last().copied() == Some(b'f'));
    assert!(rt; list.iter().rev().copied().next() == Some(b'f'));
    Ok(())
}
