//! A directory that is named before the subcommand.

ghost use Rattle.std.specs.Prelude.{◌≡◌, ◌++◌, IfOk, OnOk, map, string_bytes};
ghost use Rattle.nj_questions.specs.Cited.{folder_second, folder_word_count};

use std::alloc::{AllocError, Global};

/// Returns the arguments with `-C DIR` after the subcommand, if they begin with it: there `clap`
/// takes it. Without a subcommand there are none.
pub fn folder_second<'w>(alloc: Global, words: &'w [String]) -> Result<Vec<&'w str>, AllocError>
    ensures { IfOk result (λ moved. map (λ word. word.now) moved.items
        ≡ folder_second (map string_bytes words.entry.now)) }
{
    let (folder, rest) = words.split_at(folder_word_count(words).min(words.len()));
    let mut moved = Vec::new(alloc);
    if let Some((subcommand, options)) = rest.split_first() {
        moved.push(subcommand.as_str())?;
        push_all(&mut moved, folder)?;
        push_all(&mut moved, options)?;
    }
    Ok(moved)
}

// Returns how many of the arguments name a directory before the subcommand.
fn folder_word_count(words: &[String]) -> usize
    ensures { result ≡ folder_word_count (map string_bytes words.now) }
{
    match words.first() {
        Some(word) if word.as_str() == "-C" => 2,
        Some(word) if word.as_str().starts_with("-C") => 1,
        _ => 0,
    }
}

// Pushes the texts of some arguments.
fn push_all<'w>(moved: &mut Vec<&'w str>, words: &'w [String]) -> Result<(), AllocError>
    ensures { OnOk result (map (λ word. word.now) moved.new.items
        ≡ map (λ word. word.now) moved.old.items ++ map string_bytes words.entry.now) }
{
    'words: for word in words {
        moved.push(word.as_str())?;
    }
    Ok(())
}
