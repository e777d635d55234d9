/// What a record is measured by: the program, its input and the output file.
#[derive(Clone, Copy)]
pub struct Shape<'a> {
    /// How many cells the program has.
    pub cells: u32,
    /// The nodes that are checkpoints.
    pub checkpoints: &'a [u32],
    /// How many directives the program has; they are numbered from 1.
    pub excludes: u16,
    /// How many bytes the input has.
    pub input_length: u64,
    /// How many bytes the output file has.
    pub output_length: u64,
}
