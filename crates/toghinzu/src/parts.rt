// The structs that cross to C. They are plain numbers: nothing is promised of one that a caller hands over.

// Where a symbol's interval starts, and how long it is.
#[repr(C)]
#[derive(Clone, Copy)]
pub struct Interval {
    pub start: u32,
    pub length: u32,
}

// A row of a Peak channel's table. A row of each symbol type has a struct of its own, because the C header has both.
#[repr(C)]
#[derive(Clone, Copy)]
pub struct PeakRow {
    pub symbol: i32,
    pub start: u32,
    pub length: u32,
}

// A row of a uniform channel's table.
#[repr(C)]
#[derive(Clone, Copy)]
pub struct UniformRow {
    pub symbol: u64,
    pub start: u32,
    pub length: u32,
}

// A quantized Peak, and how many rows of its table the walk has handed out.
#[repr(C)]
#[derive(Clone, Copy)]
pub struct PeakChannel {
    pub min: i32,
    pub max: i32,
    pub precision: u32,
    pub centre: f64,
    pub scale: f64,
    pub row: u64,
}

// A uniform model, and how many rows of its table the walk has handed out.
#[repr(C)]
#[derive(Clone, Copy)]
pub struct UniformChannel {
    pub range: u64,
    pub precision: u32,
    pub row: u64,
}
