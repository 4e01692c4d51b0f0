//! A call as it runs.

use pts_boards::{Gate, Passing, Pool};
use pts_program::Program;

/// A call of a program by its number, the cells that it reads, the pool that cuts it into chunks, and the gate that these pass.
#[derive(Drop)]
pub(crate) struct Run<'a, V, G> {
    pub program: &'a Program,
    pub call: u32,
    pub view: &'a V,
    pub pool: Pool,
    pub gate: &'a G,
}

impl<V, G: Gate> Run<'_, V, G> {
    /// Passes the chunk that begins at a position, if one does.
    pub fn pass_before(&self, at: u32) {
        let size = self.pool.chunk;
        if at % size == 0 {
            self.gate.pass(Passing::Chunk {
                call: self.call,
                chunk: at / size,
            });
        }
    }
}
