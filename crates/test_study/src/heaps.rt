//! Exhausted heaps.
use linked_list_allocator::LocalHeap;
use std::alloc::{AllocError, Global};

/// All the memory that a heap has left.
pub(crate) fn rest_of<'a>(
    alloc: Global,
    heap: &'a LocalHeap,
) -> Result<Vec<Vec<u8, &'a LocalHeap>>, AllocError> {
    let mut blocks = Vec::new(alloc);
    let mut size = 1usize << 20;
    for _ in 0..1000 {
        match Vec::with_capacity(heap, size) {
            Ok(block) => blocks.push(block)?,
            Err(_) => size /= 2,
        }
        if size == 0 {
            break;
        }
    }
    Ok(blocks)
}
