//! The words that a program was called with.
ghost use Rattle.std.specs.Prelude.{◌≡◌, [], ◌∷◌, drop, IsErr, IfOk, IfErr};
ghost use Rattle.std.specs.IoError.{error_kind};
ghost use Rattle.std.specs.declared.io.ErrorKind.TheVariants.{OutOfMemory as out_of_memory};
ghost use Rattle.io_edge.specs.Words.{said};

use crate::word::Word;
use rt_base::OutOfMemory;
use std::alloc::Global;
use std::env::Args;
use std::io::{self, ErrorKind};

// The words of the arguments that are left.
fn rest_of(alloc: Global, mut args: Args) -> Result<Vec<Word>, OutOfMemory>
    ensures { IfOk result (λ words. words.items ≡ said args) }
{
    let mut words = Vec::new(alloc);
    while let Some(arg) = args.next() {
        words.push(Word::new(alloc, arg.as_str())?)?;
    }
    Ok(words)
}

// The empty word alone.
fn no_words(alloc: Global) -> Result<Vec<Word>, OutOfMemory>
    ensures { IfOk result (λ words. words.items ≡ [] ∷ []) }
{
    let mut words = Vec::new(alloc);
    words.push(Word::new(alloc, "")?)?;
    Ok(words)
}

/// The words behind the program's name, of what the system tells of its arguments. Where one of them is no text the words
/// are the empty word alone, which no command has.
///
/// OutOfMemory: memory ran out, here or when the system's arguments were read.
pub fn words_of(alloc: Global, args: io::Result<Args>) -> Result<Vec<Word>, OutOfMemory>
    // The words are the arguments but for the first.
    ensures words { IfOk args (λ a. IfOk result (λ words. words.items ≡ drop 1 (said a))) }
    // Want of memory for the arguments is OutOfMemory.
    ensures memory { IfErr args (λ e. error_kind e ≡ out_of_memory → IsErr result) }
    // Any other error is answered by the empty word alone.
    ensures no_text { IfErr args (λ e. ¬ (error_kind e ≡ out_of_memory) → IfOk result (λ words. words.items ≡ [] ∷ [])) }
{
    match args {
        Ok(mut args) => {
            let _name = args.next();
            rest_of(alloc, args)
        }
        Err(error) => match error.kind() {
            ErrorKind::OutOfMemory => Err(OutOfMemory),
            _ => no_words(alloc),
        },
    }
}
