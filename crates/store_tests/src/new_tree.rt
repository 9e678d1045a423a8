//! The tree of a new site: plans on it, and its one URL.
use page_store::Rows;
use path_moves::{PathFault, plan_append, plan_delete, plan_move};
use site_types::{PageId, Position};
use slug_urls::{url_of, walk};
use std::test::Fail;

#[test]
fn a_new_tree_takes_a_first_page(rt: HostRuntime) -> Result<(), Fail> {
    let rows = Rows::root(rt.alloc())?;
    let Ok(path) = plan_append(&rows, PageId::root()) else {
        return Err("no path".into());
    };
    assert_eq!(rt; path.text().as_slice(), b"00010001".as_slice());
    let moved = plan_move(
        rt.alloc(),
        &rows,
        PageId::root(),
        PageId::root(),
        Position::LastChild,
    );
    assert!(rt; matches!(moved, Err(PathFault::IntoItself)));
    Ok(())
}

#[test]
fn the_root_has_the_one_url(rt: HostRuntime) -> Result<(), Fail> {
    let rows = Rows::root(rt.alloc())?;
    let url = url_of(rt.alloc(), &rows, PageId::root())?.ok_or("no URL")?;
    assert_eq!(rt; url.as_slice(), b"/".as_slice());
    assert_eq!(rt; walk(&rows, b"/"), Some(PageId::root()));
    assert_eq!(rt; walk(&rows, b"/home/"), None);
    Ok(())
}

#[test]
fn a_page_that_is_not_there_takes_none_along(rt: HostRuntime) -> Result<(), Fail> {
    let rows = Rows::root(rt.alloc())?;
    let other = PageId::new(9).ok_or("no page")?;
    let gone = plan_delete(rt.alloc(), &rows, other)?;
    assert!(rt; gone.is_empty());
    Ok(())
}
