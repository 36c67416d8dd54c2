//! An option that another option has replaced.

ghost use Rattle.std.specs.Prelude.{◌≡◌, map, string_bytes};
ghost use Rattle.nj_questions.specs.Cited.{has_old_option, is_old_option};

/// Whether one of the given words is the option that `--deps` has replaced, alone or with a value.
/// Words after `--` are not options.
pub fn has_old_option(words: &[String]) -> bool
    ensures { result ≡ has_old_option (map string_bytes words.now) }
{
    'words: for word in words {
        let word = word.as_str();
        if word == "--" {
            return false;
        }
        if is_old_option(word) {
            return true;
        }
    }
    false
}

// Whether a word is the old option.
fn is_old_option(word: &str) -> bool
    ensures { result ≡ is_old_option word.now }
{
    word == "--deps-log" || word.starts_with("--deps-log=")
}
