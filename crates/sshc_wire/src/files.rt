//! Files that are read whole and added to.

ghost use Rattle.std.specs.Prelude.{◌≡◌, ℕ, List, Option, IfOk, OnOk, OnErr};
ghost use Rattle.std.specs.Option.{option_map};
ghost use Rattle.sshc_wire.specs.Contents.{IsFound, with_text};
ghost use Rattle.sshc_wire.specs.Faults.{HasCause};

use crate::source::Failed;
use crate::text::Text;

/// What a path was found to be.
#[derive(PartialEq, Eq, Drop)]
pub enum Found {
    Text(Text),
    /// No file could be opened at the path.
    NotOpened,
    /// The file's bytes aren't UTF-8.
    NotText,
}

/// Text files by their paths.
pub trait Files {
    ghost use Rattle.sshc_wire.specs.Contents.{IsFound};

    /// The paths and their bytes, where they are known. Of two with one path the first counts.
    ghost contents: { Self → Option (List (List ℕ × List ℕ)) };

    /// How often a read has failed.
    ghost read_faults: { Self → ℕ };

    /// How often adding to a file has failed.
    ghost append_faults: { Self → ℕ };

    /// Reads a file whole.
    fn read_text(&mut self, path: &str) -> Result<Found, Failed>
        ensures found { IfOk result (λ answer. IsFound (contents self.old) path.now answer) }
        ensures same { contents self.new ≡ contents self.old }
        ensures cause { HasCause (read_faults self.old) (read_faults self.new) result }
        ensures others { append_faults self.new ≡ append_faults self.old };

    /// Adds text at a file's end. Makes the file and its parent folders where they don't exist.
    fn append(&mut self, path: &str, text: &str) -> Result<(), Failed>
        ensures added { OnOk result
            (contents self.new ≡ option_map (λ files. with_text files path.now text.now) (contents self.old)) }
        ensures none { OnErr result (contents self.new ≡ contents self.old) }
        ensures cause { HasCause (append_faults self.old) (append_faults self.new) result }
        ensures others { read_faults self.new ≡ read_faults self.old };
}
