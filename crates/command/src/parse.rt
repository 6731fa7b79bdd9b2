// The grammar of a line: a letter and numbers, single spaces between.
ghost use Rattle.std.specs.Prelude.{◌≡◌, length, Some, None, MatchOption};
ghost use Rattle.std.specs.Option.{unwrap_or};
ghost use Rattle.command.specs.Grammar.{numbers_behind, fields_of, asked_by, command_of};

use crate::Command;
use crate::lines::Reader;
use crate::number::number_of;
use planner::Job;

// Reads the numbers behind a letter into a lent slice: as many as it has places, each after a space.
fn fill(numbers: &mut [i32], behind: &[u8]) -> Option<()>
    ensures { let found = numbers_behind (length numbers.old) behind.now in MatchOption result (found ≡ None) (λ _. found ≡ Some numbers.new) }
{
    let mut fields = behind.split(|byte| *byte == b' ');
    if !fields.next()?.is_empty() {
        return None;
    }
    for number in numbers.iter_mut() {
        *number = number_of(fields.next()?)?;
    }
    match fields.next() {
        Some(_) => None,
        None => Some(()),
    }
}

// The numbers behind a letter, if there are `N`, each after a space.
fn numbers_of<const N: usize>(behind: &[u8]) -> Option<[i32; N]>
    ensures { result ≡ numbers_behind N behind.now }
{
    let mut numbers = [0; N];
    fill(&mut numbers, behind)?;
    Some(numbers)
}

// The command of a line, if it can be read.
pub(crate) fn read(line: &[u8]) -> Option<Command>
    ensures { unwrap_or result Command.Unreadable ≡ asked_by (fields_of line.now) }
{
    let (letter, behind) = line.split_first()?;
    match letter {
        b'J' => {
            let [earliest, latest, duration, usage] = numbers_of::<4>(behind)?;
            Some(Command::Keep(Job {
                earliest,
                latest,
                duration,
                usage,
            }))
        }
        b'L' => {
            let [capacity] = numbers_of::<1>(behind)?;
            Some(Command::Load(capacity))
        }
        b'U' => {
            let [id, earliest, latest] = numbers_of::<3>(behind)?;
            Some(Command::Update {
                id,
                earliest,
                latest,
            })
        }
        b'P' => {
            let [id] = numbers_of::<1>(behind)?;
            Some(Command::Fit(id))
        }
        b'T' => {
            let [] = numbers_of::<0>(behind)?;
            Some(Command::Rows)
        }
        _ => None,
    }
}

// The command of a line, which has at most `Reader::LINE` bytes.
pub fn command_of(line: &[u8]) -> Command
    ensures { result ≡ command_of line.now }
{
    if Reader::LINE < line.len() {
        return Command::Unreadable;
    }
    read(line).unwrap_or(Command::Unreadable)
}
