//! The texts of paths, and the size of a page's row.
use site_types::PageRow;
use std::mem::size_of;
use step_path::Path;

/// What may be the text of a path, and how many steps the path then has; else 0.
struct PathRow {
    text: &'static [u8],
    depth: u8,
}

/// Texts of paths: four characters a step, digits and upper case letters, and no step 0.
const PATHS: [PathRow; 8] = [
    PathRow {
        text: b"0001",
        depth: 1,
    },
    PathRow {
        text: b"0001ZZZZ",
        depth: 2,
    },
    PathRow {
        text: &[b'1'; 252],
        depth: 63,
    },
    PathRow {
        text: &[b'1'; 256],
        depth: 0,
    },
    PathRow {
        text: b"",
        depth: 0,
    },
    PathRow {
        text: b"00010000",
        depth: 0,
    },
    PathRow {
        text: b"000a",
        depth: 0,
    },
    PathRow {
        text: b"000100",
        depth: 0,
    },
];

#[test]
fn paths_are_read_from_their_texts(rt: HostRuntime) {
    for row in &PATHS {
        let depth = match Path::read(row.text) {
            Some(path) => path.depth(),
            None => 0,
        };
        assert_eq!(rt; depth, row.depth);
    }
}

#[test]
fn a_row_has_656_bytes(rt: HostRuntime) {
    assert_eq!(rt; size_of::<PageRow>(), 656);
}
