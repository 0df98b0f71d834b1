// The lines of a text pushed into a pool.
ghost use Rattle.std.specs.Prelude.{◌≡◌, [], ◌∷◌};
ghost use Rattle.pool.specs.Answers.{said_pushed};
ghost use Rattle.lines.specs.TabLine.{tab_entry};
ghost use Rattle.lines.specs.Text.{lines_of, entry_lines};
ghost use Rattle.catalogue.specs.Filling.{said_filled, line_says, line_pool, fill_from, left_from, fill_pool, HeldIf};
ghost use Rattle.catalogue.specs.TextAnswers.{text_from};
ghost use Rattle.catalogue.specs.Limits.{program_capacity};

use crate::sizes::POOL_WORDS;
use keymap::Refusal;
use lines::answers::Cut;

// The first line that is refused, by its number from 1. The lines before it are pushed.
#[derive(Clone, Copy)]
pub struct Refused {
    pub refusal: Refusal,
    pub line: usize,
}

// Resets the pool and pushes the lines of a text in turn, up to the first that is refused.
pub fn fill(text: &[u8], pool: &mut [u32; POOL_WORDS]) -> Result<(), Refused>
    ensures answer { said_filled result ≡ text_from program_capacity 1 [] (entry_lines text.now) }
    ensures left { pool.new ≡ fill_pool pool.old text.now }
    ensures held { HeldIf result pool.new text.now }
{
    // no pool of this length is refused
    let _ = pool::reset(pool);
    push_lines(text, pool)
}

// Each line before another has a byte, its LF, so that the numbers of lines fit.
fn push_lines(text: &[u8], pool: &mut [u32]) -> Result<(), Refused>
    ensures answer { said_filled result ≡ fill_from 1 pool.old (lines_of text.now) }
    ensures left { pool.new ≡ left_from pool.old (lines_of text.now) }
{
    let mut at = 0;
    let mut line = 1;
    while let Some(Cut { end, next }) = lines::next_line(text, at) {
        if let Err(refusal) = push_line(&text[at..end], pool) {
            return Err(Refused { refusal, line });
        }
        at = next;
        line += 1;
    }
    Ok(())
}

// Pushes the entry of a line. A line that breaks the rule is not pushed.
fn push_line(line: &[u8], pool: &mut [u32]) -> Result<(), Refusal>
    ensures answer { said_pushed result ≡ line_says pool.old (tab_entry line.now) }
    ensures left { pool.new ≡ line_pool pool.old (tab_entry line.now) }
{
    let entry = lines::tab_line(line)?;
    pool::push(pool, lines::tab_line_key(line), entry.number)
}
