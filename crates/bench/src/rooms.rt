// The rooms that the program holds, on the stack.

// The image's length, the image and the text.
pub type Input = [u8; 1181187];

// The words of the largest table.
pub type Nodes = [u32; 327675];

pub type Pool = [u8; 1048576];

// What is printed.
pub type Buffer = [u8; 2097152];

// All zero, where zero is the default.
//
// Kept: a function makes each room, since the check of a body that holds several large arrays by their values runs out of stack.
pub fn empty<T: Copy + Default, const N: usize>() -> [T; N] {
    [T::default(); N]
}
