//! The commands, by the words of the command line.

ghost use Rattle.std.specs.Prelude.{◌≡◌, ◌≤◌, IfSome};
ghost use Rattle.command_words.specs.Commands.{command_of, lone_command, counted_command, load_command, number_within, texts, IsWithin};

use script_text::number;

/// The most workers.
const MOST_WORKERS: u32 = 16;

/// The greatest seed of a load, and the greatest number of a call of a disk.
const MOST_NUMBER: u32 = 2_147_483_647;

/// The most transactions of a load.
const MOST_SIZE: u32 = 2_000;

/// What the words ask for.
#[derive(Clone, Copy, Debug, PartialEq, Eq)]
pub enum Command {
    /// Runs the script as one interleaving.
    Replay,
    /// Runs one script for each session, in turns.
    Turns,
    /// Runs one script for each session, on this number of workers.
    Threads(u8),
    /// Runs a generated input with this seed and this number of transactions.
    Load { number: u32, size: u32 },
    /// Checks the text of a run, as written by `threads` and `pool`.
    Audit,
    /// Runs the script on a disk that fails at this call and at all later ones, counted from 1; 0 names no call.
    Crash(u32),
    /// Runs several scripts, each under its own tree.
    Phases,
    /// Runs one script for each session, on this number of workers, which take the sessions from a queue.
    Pool(u8),
}

/// Returns the command of these words, or `None` if they do not have the shape of a command.
pub fn command_of(words: &[String]) -> Option<Command>
    ensures command { result ≡ command_of (texts words.now) }
    ensures within { IfSome result IsWithin }
{
    match words {
        [word] => lone_command(word.as_str()),
        [word, number] => counted_command(word.as_str(), number.as_str()),
        [word, number, size] => load_command(word.as_str(), number.as_str(), size.as_str()),
        _ => None,
    }
}

#[tactic(auto, unfolding(crate::specs::Commands::lone_command))]
fn lone_command(word: &str) -> Option<Command>
    ensures command { result ≡ lone_command word.now }
    ensures within { IfSome result IsWithin }
{
    match word {
        "replay" => Some(Command::Replay),
        "turns" => Some(Command::Turns),
        "audit" => Some(Command::Audit),
        "phases" => Some(Command::Phases),
        _ => None,
    }
}

#[tactic(auto, unfolding(crate::specs::Commands::counted_command))]
fn counted_command(word: &str, number: &str) -> Option<Command>
    ensures command { result ≡ counted_command word.now number.now }
    ensures within { IfSome result IsWithin }
{
    match word {
        "threads" => {
            let workers = number_within(number, 1, MOST_WORKERS)?;
            Some(Command::Threads(workers as u8))
        }
        "pool" => {
            let workers = number_within(number, 1, MOST_WORKERS)?;
            Some(Command::Pool(workers as u8))
        }
        "crash" => {
            let call = number_within(number, 0, MOST_NUMBER)?;
            Some(Command::Crash(call))
        }
        _ => None,
    }
}

#[tactic(auto, unfolding(crate::specs::Commands::load_command))]
fn load_command(word: &str, number: &str, size: &str) -> Option<Command>
    ensures command { result ≡ load_command word.now number.now size.now }
    ensures within { IfSome result IsWithin }
{
    if word != "load" {
        return None;
    }
    let number = number_within(number, 0, MOST_NUMBER)?;
    let size = number_within(size, 1, MOST_SIZE)?;
    Some(Command::Load { number, size })
}

/// Returns the value of one to ten digits, if it is from `low` to `high`.
#[tactic(auto, unfolding(crate::specs::Commands::number_within))]
fn number_within(digits: &str, low: u32, high: u32) -> Option<u32>
    ensures value { result ≡ number_within low high digits.now }
    ensures bound { IfSome result (λ n. (low ≤ n) × (n ≤ high)) }
{
    if digits.len() > 10 {
        return None;
    }
    let value = number(digits.as_bytes(), u64::from(high))?;
    if value >= u64::from(low) {
        Some(value as u32)
    } else {
        None
    }
}
