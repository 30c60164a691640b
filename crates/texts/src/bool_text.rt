// The texts of the two bools.
ghost use Rattle.std.specs.Prelude.{ℕ, ◌≤◌, length};
ghost use Rattle.texts.specs.Bools.{Common};
ghost use Rattle.texts.specs.Texts.{bool_text};
ghost use Rattle.values.specs.Fronts.{ReadsValue};

use values::front::{Front, Stopped};

// The length of the longest beginning that a text and a word have in common.
fn common(text: &[u8], word: &[u8]) -> usize
    ensures { Common word.now text.now result }
{
    text.iter().zip(word).take_while(|(a, b)| a == b).count()
}

// The bool whose text is at the beginning of `text`.
pub fn read_bool(text: &[u8]) -> Result<Front<bool>, Stopped>
    ensures { ReadsValue bool_text text.now result }
{
    let yes = common(text, b"true");
    if yes == 4 {
        return Ok(Front {
            value: true,
            length: yes,
        });
    }
    let no = common(text, b"false");
    if no == 5 {
        return Ok(Front {
            value: false,
            length: no,
        });
    }
    Err(Stopped {
        length: yes.max(no),
    })
}
