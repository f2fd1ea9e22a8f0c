// Which of the command's words is what, by their places. An option is known here and nowhere else.
use crate::word;

// The places of what was given. `first` to `third` are the words that follow no option. An option with a value is known by the place of that.
#[derive(Clone, Copy, Default)]
pub struct Words {
    pub first: Option<usize>,
    pub second: Option<usize>,
    pub third: Option<usize>,
    pub key: Option<usize>,
    pub save: Option<usize>,
    pub rows: Option<usize>,
    pub replace: Option<usize>,
    pub vote: Option<usize>,
    pub raw: Option<usize>,
    pub nonsecure: Option<usize>,
    pub caller: Option<usize>,
}

// An option.
#[derive(Clone, Copy, Debug, PartialEq, Eq)]
enum Choice {
    Key,
    Save,
    Rows,
    Replace,
    Vote,
    Raw,
    NonSecure,
    Caller,
}

impl Choice {
    fn of(word: &[u8]) -> Option<Choice> {
        match word {
            b"--key" => Some(Choice::Key),
            b"--save" => Some(Choice::Save),
            b"--rows" => Some(Choice::Rows),
            b"--replace" => Some(Choice::Replace),
            b"--vote" => Some(Choice::Vote),
            b"--raw" => Some(Choice::Raw),
            b"--non-secure" => Some(Choice::NonSecure),
            b"--as" => Some(Choice::Caller),
            _ => None,
        }
    }

    // Whether the word after it is its value.
    fn has_value(self) -> bool {
        !matches!(self, Choice::Replace | Choice::Raw | Choice::NonSecure)
    }
}

// The option whose value comes next, and its place.
type Awaited = Option<(Choice, usize)>;

// What is odd about the words, with the place of one of them: it fits nowhere; it is an option that has no value; it is an option that was
// given before.
#[derive(Clone, Copy, Debug, PartialEq, Eq)]
pub(crate) enum Odd {
    Misfit(usize),
    NoValue(usize),
    Twice(usize),
}

impl Words {
    // Where the place of an option stands, or of its value.
    fn slot(&mut self, choice: Choice) -> &mut Option<usize> {
        match choice {
            Choice::Key => &mut self.key,
            Choice::Save => &mut self.save,
            Choice::Rows => &mut self.rows,
            Choice::Replace => &mut self.replace,
            Choice::Vote => &mut self.vote,
            Choice::Raw => &mut self.raw,
            Choice::NonSecure => &mut self.nonsecure,
            Choice::Caller => &mut self.caller,
        }
    }

    // A word that follows no option.
    fn take_plain(&mut self, place: usize) -> Result<(), Odd> {
        if self.first.is_none() {
            self.first = Some(place);
        } else if self.second.is_none() {
            self.second = Some(place);
        } else if self.third.is_none() {
            self.third = Some(place);
        } else {
            return Err(Odd::Misfit(place));
        }
        Ok(())
    }

    // An option, and its place where its value comes next.
    fn take_choice(&mut self, rt: &HostRuntime, place: usize) -> Result<Awaited, Odd> {
        let mut bytes = [0u8; 16];
        let Some(choice) = Choice::of(word::read(rt, place, &mut bytes)) else {
            return Err(Odd::Misfit(place));
        };
        let slot = self.slot(choice);
        if slot.is_some() {
            return Err(Odd::Twice(place));
        }
        if choice.has_value() {
            return Ok(Some((choice, place)));
        }
        *slot = Some(place);
        Ok(None)
    }

    // One word more. An option is no value.
    fn take(&mut self, rt: &HostRuntime, awaited: Awaited, place: usize) -> Result<Awaited, Odd> {
        let is_option = word::is_option(rt, place);
        match awaited {
            Some((_, at)) if is_option => Err(Odd::NoValue(at)),
            Some((choice, _)) => {
                *self.slot(choice) = Some(place);
                Ok(None)
            }
            None if is_option => self.take_choice(rt, place),
            None => {
                self.take_plain(place)?;
                Ok(None)
            }
        }
    }

    // All words after the command's name, as far as the first that is odd.
    pub(crate) fn take_all(&mut self, rt: &HostRuntime) -> Result<(), Odd> {
        let mut awaited = None;
        for place in word::command(rt) + 1..word::arg_count(rt) {
            awaited = self.take(rt, awaited, place)?;
        }
        match awaited {
            Some((_, at)) => Err(Odd::NoValue(at)),
            None => Ok(()),
        }
    }
}
