// Row-vector matrix products. Sums go from left to right, each operation rounded once, never fused.
ghost use Rattle.std.specs.Prelude.{◌≡◌, ◌<◌};
ghost use Rattle.matrix.specs.Math.{identity, column, row_times, dot, col_times, times, laid, rows};

pub fn identity() -> [[f32; 4]; 4]
    ensures { result ≡ identity }
{
    [
        [1.0, 0.0, 0.0, 0.0],
        [0.0, 1.0, 0.0, 0.0],
        [0.0, 0.0, 1.0, 0.0],
        [0.0, 0.0, 0.0, 1.0],
    ]
}

// Number c of the row v times m. Asks for a column that is there.
fn column_of(v: [f32; 4], m: [[f32; 4]; 4], c: usize) -> f32
    requires { c < 4 }
    ensures { result ≡ column v m c }
{
    v[0] * m[0][c] + v[1] * m[1][c] + v[2] * m[2][c] + v[3] * m[3][c]
}

// The row v times m: how a position goes through a matrix.
pub fn mul_row_vec4(v: [f32; 4], m: [[f32; 4]; 4]) -> [f32; 4]
    ensures { result ≡ row_times v m }
{
    [
        column_of(v, m, 0),
        column_of(v, m, 1),
        column_of(v, m, 2),
        column_of(v, m, 3),
    ]
}

// Number i of the upper 3 by 3 of m times the column v. Asks for a row that is there.
fn dot_of(m: [[f32; 4]; 4], v: [f32; 3], i: usize) -> f32
    requires { i < 4 }
    ensures { result ≡ dot m v i }
{
    m[i][0] * v[0] + m[i][1] * v[1] + m[i][2] * v[2]
}

// The upper 3 by 3 of m times the column v. With positions as rows this is the inverse rotation, which takes a direction
// from the eye's space into the object's; the fourth column, translation, has no part in it.
pub fn mul_col_vec3(m: [[f32; 4]; 4], v: [f32; 3]) -> [f32; 3]
    ensures { result ≡ col_times m v }
{
    [dot_of(m, v, 0), dot_of(m, v, 1), dot_of(m, v, 2)]
}

// a times b: each row of a through b. Written out: through the array's `map`, whose closure holds b, the product is not
// proved.
pub fn mul4(a: [[f32; 4]; 4], b: [[f32; 4]; 4]) -> [[f32; 4]; 4]
    ensures { result ≡ times a b }
{
    [
        mul_row_vec4(a[0], b),
        mul_row_vec4(a[1], b),
        mul_row_vec4(a[2], b),
        mul_row_vec4(a[3], b),
    ]
}

// The sixteen numbers row by row, as table 1 has them. Written out, here and below, so that the place of each number is seen.
pub fn to_flat(m: [[f32; 4]; 4]) -> [f32; 16]
    ensures { result ≡ laid m }
{
    [
        m[0][0], m[0][1], m[0][2], m[0][3], m[1][0], m[1][1], m[1][2], m[1][3], m[2][0], m[2][1],
        m[2][2], m[2][3], m[3][0], m[3][1], m[3][2], m[3][3],
    ]
}

// The matrix of sixteen numbers that stand row by row.
pub fn from_flat(f: [f32; 16]) -> [[f32; 4]; 4]
    ensures { result ≡ rows f 0 }
{
    [
        [f[0], f[1], f[2], f[3]],
        [f[4], f[5], f[6], f[7]],
        [f[8], f[9], f[10], f[11]],
        [f[12], f[13], f[14], f[15]],
    ]
}
