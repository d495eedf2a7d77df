//! What a command line asks for.

/// What the words of a command line ask for, with the paths that they give, as they were written.
#[derive(Debug, Drop)]
pub enum Words {
    /// Check the grammar in the file of this path.
    Check(String),
    /// Parse by the grammar in the first file the text in the second one.
    Parse(String, String),
    /// Serve an editor by the grammar in the file of this path.
    Serve(String),
}
