// What a board's maker is told of a plan.
ghost use Rattle.std.specs.Prelude.{◌≡◌, ◌++◌};
ghost use Rattle.text.specs.Texts.{cut};
ghost use Rattle.report.specs.Quotes.{quote_text, quoted, value_line};

use crate::fault::ProgramFault;
use board::figure::figure;
use board::plan::Counts;
use formats::read::read_plan;
use text::text::Text;

#[derive(Clone, Copy)]
pub struct Quote {
    pub counts: Counts,
    // the numbers that are printed; a plan has the kinds themselves
    pub policy: u8,
    pub rule: u8,
    // how many different ranks the lines have
    pub ranks: u8,
    // the memory figure
    pub suspended: u8,
    // how many bytes follow the plan
    pub rest: usize,
}

// The longest input that a program takes.
pub const LIMIT: usize = 65_536;

// The quote for the plan that begins the bytes.
pub fn quote_plan(bytes: &[u8]) -> Result<Quote, ProgramFault>
    ensures { result ≡ quoted bytes.now }
{
    if bytes.len() > LIMIT {
        return Err(ProgramFault::TooLong);
    }
    let (plan, rest) = read_plan(bytes)?;
    let nesting = plan.nesting();
    let tables = plan.tables();
    let suspended = figure(&plan, &nesting);
    Ok(Quote {
        counts: plan.counts(),
        policy: tables.policy,
        rule: tables.rule,
        ranks: suspended - 1,
        suspended,
        rest: rest.len(),
    })
}

// Adds a line: a name and a value.
fn add_line(text: &mut Text, name: &str, value: u64)
    ensures { text.new ≡ cut (text.old ++ value_line name.now value) }
{
    text.word(name);
    text.word(" ");
    text.number(value);
    text.word("\n");
}

impl Quote {
    // One line for each value: its name and the value. No `Display`: its contract allows an error at any time, and a text
    // can't fail.
    pub fn text(&self) -> Text
        ensures { result ≡ quote_text self.now }
    {
        let lines = [
            ("tasks", self.counts.tasks as u64),
            ("lines", self.counts.lines as u64),
            ("events", self.counts.events as u64),
            ("policy", self.policy as u64),
            ("rule", self.rule as u64),
            ("ranks", self.ranks as u64),
            ("suspended", self.suspended as u64),
            ("rest", self.rest as u64),
        ];
        let mut text = Text::new();
        for (name, value) in lines {
            add_line(&mut text, name, value);
        }
        text
    }
}
