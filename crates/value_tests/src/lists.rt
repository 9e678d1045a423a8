//! Texts and lists on memory of their own.
use site_ids::{Bytes, Ids, Text, Texts, Url};
use std::test::Fail;

#[test]
fn texts_are_copied(rt: HostRuntime) -> Result<(), Fail> {
    let alloc = rt.alloc();
    let text = Text::from_string(String::from_str(alloc, "two")?);
    let texts = Texts::from_vec(vec![in alloc; text]?);
    assert!(rt; texts.copy(alloc)? == texts);
    Ok(())
}

#[test]
fn ids_are_copied(rt: HostRuntime) -> Result<(), Fail> {
    let ids = Ids::from_vec(Vec::from_slice(rt.alloc(), &[3, 5])?);
    let copy = ids.copy(rt.alloc())?;
    assert!(rt; copy.as_slice() == ids.as_slice());
    Ok(())
}

#[test]
fn urls_are_copied(rt: HostRuntime) -> Result<(), Fail> {
    let url = Url::from_vec(Vec::from_slice(rt.alloc(), b"/home/")?);
    let copy = url.copy(rt.alloc())?;
    assert!(rt; copy.as_slice() == url.as_slice());
    Ok(())
}

#[test]
fn bytes_are_copied(rt: HostRuntime) -> Result<(), Fail> {
    let bytes = Bytes::from_vec(Vec::from_slice(rt.alloc(), b"\x00\xff")?);
    let copy = bytes.copy(rt.alloc())?;
    assert!(rt; copy.as_slice() == bytes.as_slice());
    Ok(())
}
