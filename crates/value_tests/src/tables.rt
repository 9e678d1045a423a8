//! A table of moments with two pages, where memory suffices.
use site_types::{Moment, PageId};
use std::test::Fail;
use time_table::TimeTable;

#[test]
fn two_pages_are_due_in_the_order_of_their_moments(rt: HostRuntime) -> Result<(), Fail> {
    let first = PageId::new(2).ok_or("no page")?;
    let second = PageId::new(3).ok_or("no page")?;
    let early = Moment::new(10).ok_or("no moment")?;
    let late = Moment::new(20).ok_or("no moment")?;
    let mut table = TimeTable::new(rt.alloc());
    table.reserve(2)?;
    table.set(first, late);
    if table.len() < 2 {
        table.reserve(1)?;
        table.set(second, early);
    }
    assert_eq!(rt; table.at(0), Some((early, second)));
    assert_eq!(rt; table.due(early).len(), 1);
    assert_eq!(rt; table.due(late).len(), 2);
    Ok(())
}
