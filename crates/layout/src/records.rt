// What the readers answer.

// A vertex: position, texture coordinates s and t, and the colour word, in which the first of four bytes is lowest.
#[derive(Clone, Copy)]
pub struct Vertex {
    pub pos: [f32; 3],
    pub st: [f32; 2],
    pub colour: u32,
}

// A viewport: scale and translation of x, y and z.
#[derive(Clone, Copy)]
pub struct Viewport {
    pub scale: [f32; 3],
    pub translation: [f32; 3],
}

// A light: its direction and its colour.
#[derive(Clone, Copy)]
pub struct Light {
    pub direction: [f32; 3],
    pub colour: [f32; 3],
}
