// New numbers of sorts and operations.

ghost use Rattle.std.specs.Prelude.{◌≡◌, IfOk, map};
ghost use Rattle.spec_core.specs.Numbers.{sort_number};
ghost use Rattle.type_images.specs.Images as images;

use spec_core::items::Sort;
use spec_core::memory::Memory;
use std::alloc::Global;

/// A new number for each sort and each operation, in the order of the old numbers.
#[derive(Drop)]
pub struct Renumbering {
    /// Of sorts.
    pub sorts: Vec<u32>,
    /// Of operations.
    pub operations: Vec<u32>,
}

/// The new number; what has none keeps its own. It takes no memory.
pub fn new_number(news: &[u32], old: u32) -> u32
    ensures { result ≡ images.new_number news.now old }
{
    if (old as usize) < news.len() {
        news[old as usize]
    } else {
        old
    }
}

/// Sorts with their new numbers.
pub fn sort_images(alloc: Global, news: &[u32], sorts: &[Sort]) -> Result<Vec<Sort>, Memory>
    ensures { IfOk result (λ all. map sort_number all.items ≡ map (images.new_number news.now) (map sort_number sorts.now)) }
{
    let mut all = Vec::new(alloc);
    for sort in sorts {
        all.push(Sort(new_number(news, sort.0)))?;
    }
    Ok(all)
}
