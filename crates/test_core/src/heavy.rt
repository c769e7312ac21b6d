//! Messages whose clones take memory.
use linked_list_allocator::LocalHeap;
use std::alloc::AllocError;

/// How many bytes of the heap a clone takes.
const BLOCK: usize = 64;

/// A message whose clones each take memory of the heap.
#[derive(Drop)]
pub(crate) struct Heavy<'a> {
    pub(crate) number: u64,
    heap: &'a LocalHeap,
    block: Vec<u8, &'a LocalHeap>,
}

impl<'a> Heavy<'a> {
    /// A message that takes none itself.
    pub(crate) fn new(number: u64, heap: &'a LocalHeap) -> Self {
        let block = Vec::new(heap);
        Heavy {
            number,
            heap,
            block,
        }
    }
}

impl<'a> Clone for Heavy<'a> {
    fn clone(&self) -> Result<Heavy<'a>, AllocError> {
        let block = Vec::with_capacity(self.heap, BLOCK)?;
        Ok(Heavy {
            number: self.number,
            heap: self.heap,
            block,
        })
    }
}
