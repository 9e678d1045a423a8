//! The plain program over trees, run on a tree of five pages.
use page_tree::grove::{Grove, Page, Spot, grow, has_room};
use page_tree::listing::rows;
use page_tree::place::moved;
use page_tree::walk::{path_of, url_of};
use std::alloc::{AllocError, Global};
use std::process::Abort;
use std::test::Fail;

/// Where page 4 goes below the root, and the id and the path of each page afterwards.
struct MoveRow {
    spot: Spot,
    paths: &'static str,
}

/// The three kinds of places.
const MOVES: [MoveRow; 3] = [
    MoveRow {
        spot: Spot::AtFirst,
        paths: "1[1] 4[1, 1] 5[1, 1, 1] 2[1, 2] 3[1, 3] ",
    },
    MoveRow {
        spot: Spot::BeforePage(3),
        paths: "1[1] 2[1, 1] 4[1, 2] 5[1, 2, 1] 3[1, 3] ",
    },
    MoveRow {
        spot: Spot::AtEnd,
        paths: "1[1] 2[1, 1] 3[1, 2] 4[1, 3] 5[1, 3, 1] ",
    },
];

/// A page with its children and the siblings after it.
fn page(
    alloc: Global,
    id: u32,
    step: u32,
    slug: &[u8],
    kids: Grove,
    rest: Grove,
) -> Result<Grove, AllocError> {
    let slug = Vec::from_slice(alloc, slug)?;
    let page = Page {
        id,
        step,
        slug,
        body: id,
    };
    grow(alloc, &page, step, kids, rest)
}

/// Pages 2, 3 and 4 with the slugs a, b and c below the root, and page 5, x, below page 4.
fn four_pages(alloc: Global) -> Result<Grove, AllocError> {
    let x = page(alloc, 5, 1, b"x", Grove::Bare, Grove::Bare)?;
    let c = page(alloc, 4, 3, b"c", x, Grove::Bare)?;
    let b = page(alloc, 3, 2, b"b", Grove::Bare, c)?;
    let a = page(alloc, 2, 1, b"a", Grove::Bare, b)?;
    page(alloc, 1, 1, b"", a, Grove::Bare)
}

/// The id and the path of each page, depth first.
fn shown(alloc: Global, tree: &Grove) -> Result<String, AllocError> {
    let mut text = String::new(alloc);
    for row in &rows(alloc, tree)? {
        let id = row.id;
        write!(text, "{id}{:?} ", row.path)?;
    }
    Ok(text)
}

/// Ends the process if the move of a row does not give its paths.
fn expect_move(
    rt: &impl Abort,
    alloc: Global,
    tree: &Grove,
    row: &MoveRow,
) -> Result<(), AllocError> {
    assert!(rt; has_room(tree));
    let after = moved(alloc, 4, 1, row.spot, tree)?;
    let paths = shown(alloc, &after)?;
    assert!(rt; paths.as_str() == row.paths);
    Ok(())
}

/// Ends the process if the walk to page 5 has another path.
fn expect_path(rt: &impl Abort, alloc: Global, tree: &Grove) -> Result<(), AllocError> {
    let path = path_of(alloc, 5, tree)?;
    assert!(rt; path.as_slice() == [1, 3, 1].as_slice());
    Ok(())
}

/// Ends the process if the walk to page 5 has another URL.
fn expect_url(rt: &impl Abort, alloc: Global, tree: &Grove) -> Result<(), AllocError> {
    let url = url_of(alloc, 5, tree)?;
    assert!(rt; url.as_slice() == b"/c/x/".as_slice());
    Ok(())
}

#[test]
fn pages_move_and_are_walked_to(rt: HostRuntime) -> Result<(), Fail> {
    let tree = four_pages(rt.alloc())?;
    for row in &MOVES {
        expect_move(&rt, rt.alloc(), &tree, row)?;
    }
    expect_path(&rt, rt.alloc(), &tree)?;
    Ok(expect_url(&rt, rt.alloc(), &tree)?)
}
