// The text of a configuration (document 01, "Configuration and listing"), read into the record.
#![tactic(auto)]

mod line;

ghost use Rattle.std.specs.Prelude.{◌≡◌, ◌≤◌, true};
ghost use Rattle.config_text.specs.Line.{said};
ghost use Rattle.config_text.specs.Config.{is_new, may_follow, with, config_of};

use crate::line::{Line, read_line};
use config::{Config, empty, first, has_writer};
use wire::constants::{MOST_FIELDS, MOST_WRITERS};
use wire::refusal::{Reason, Refusal};

// May a writer with this id come after the first n?
fn is_new(ids: &[u16], n: usize, id: u16) -> bool
    ensures { result ≡ is_new ids.now n id }
{
    if MOST_WRITERS <= n {
        return false;
    }
    !has_writer(first(ids, n), id)
}

// May the line come after what the configuration has?
fn permitted(config: &Config, line: Line) -> bool
    ensures { result ≡ may_follow config.now (said line) }
{
    match line {
        Line::Writer(id, _) => is_new(&config.ids, config.writers, id),
        Line::Field(_) => (config.writers != 0) & (config.fields < MOST_FIELDS),
    }
}

// Takes what a permitted line says into the configuration.
fn add(config: &mut Config, line: Line)
    requires { (config.old.fields ≤ 64) × (may_follow config.old (said line) ≡ true) }
    ensures { config.new ≡ with config.old (said line) }
{
    match line {
        Line::Writer(id, size) => {
            let n = config.writers;
            config.ids[n] = id;
            config.sizes[n] = size;
            config.starts[n] = config.fields as u8;
            config.writers = n + 1;
        }
        Line::Field(kind) => {
            let n = config.fields;
            config.types[n] = kind;
            config.fields = n + 1;
        }
    }
}

// A text's configuration, or its first bad line: by 16, with the line from 1.
// A line ends where reading it says, so the position goes on by no fixed step.
pub fn read_config(s: &[u8]) -> Result<Config, Refusal>
    ensures { result ≡ config_of s.now }
{
    let mut config = empty();
    let mut number: usize = 1;
    let mut at: usize = 0;
    while at < s.len() {
        let bad = Reason::BadLine.at(number);
        let Some((line, next)) = read_line(s, at) else {
            return Err(bad);
        };
        if !permitted(&config, line) {
            return Err(bad);
        }
        add(&mut config, line);
        at = next;
        number += 1;
    }
    Ok(config)
}
