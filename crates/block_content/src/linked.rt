//! The pages that contents link to.
ghost use Rattle.std.specs.Prelude.{◌≡◌, ◌↔◌, ℕ, Contains, IfOk};
ghost use Rattle.std.specs.List.Sorted.{IsStrictlyIncreasing};
ghost use Rattle.site_types.specs.Links.{LinksTo, pages_in};

use site_types::{Block, Content, Ids, NoMemory};
use std::alloc::Global;

/// The ids of the pages that a content links to, rising, each once.
pub fn links(alloc: Global, content: &Content) -> Result<Ids, NoMemory>
    ensures rising { IfOk result IsStrictlyIncreasing }
    ensures linked { IfOk result (λ ids.
        (page : ℕ) → Contains ids page ↔ LinksTo content.now page) }
{
    let mut numbers = page_numbers(alloc, content.blocks().as_slice())?;
    numbers.sort_unstable();
    numbers.dedup();
    Ok(Ids::from_vec(numbers))
}

/// The ids in the links of these blocks, in the blocks' order.
fn page_numbers(alloc: Global, blocks: &[Block]) -> Result<Vec<u32>, NoMemory>
    ensures { IfOk result (λ numbers. numbers.items ≡ pages_in blocks.now) }
{
    let mut numbers = Vec::new(alloc);
    for block in blocks {
        if let Block::Page(page) = block {
            numbers.push(page.get())?;
        }
    }
    Ok(numbers)
}
