// The drawing of a sheet.
#![tactic(auto)]

// A vertex (bar) lies in its row, from its first to its last column.
#[repr(C)]
#[derive(Clone, Copy, Default)]
pub struct VertexSegment {
    pub row: u16,
    pub first: u16,
    pub last: u16,
}

// An edge (wire) stands in its column, from its tail's row to its head's row.
#[repr(C)]
#[derive(Clone, Copy, Default)]
pub struct EdgeSegment {
    pub column: u16,
    pub low: u16,
    pub high: u16,
}

// The drawing record; unused entries are 0. Arrays: fixed memory, no heap, and the specification and the C interface name them.
#[repr(C)]
#[derive(Clone, Copy, Default)]
pub struct Drawing {
    pub rows: u16,
    pub columns: u16,
    pub vertices: [VertexSegment; 128],
    pub edges: [EdgeSegment; 256],
}
