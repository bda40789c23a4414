// The words of a call, each ended by a zero byte: the command, files, and options wherever they stand.
use streams::number;

#[derive(Clone, Copy, PartialEq, Eq)]
pub enum Command {
    Check,
    Print,
    Compact,
    Fleet,
    Carry,
    Show,
    Help,
    Version,
    Script,
}

impl Command {
    pub fn from_word(word: &[u8]) -> Option<Command> {
        match word {
            b"check" => Some(Command::Check),
            b"print" => Some(Command::Print),
            b"compact" => Some(Command::Compact),
            b"fleet" => Some(Command::Fleet),
            b"carry" => Some(Command::Carry),
            b"show" => Some(Command::Show),
            b"help" => Some(Command::Help),
            b"version" => Some(Command::Version),
            b"script" => Some(Command::Script),
            _ => None,
        }
    }
}

// The options that take the next word along.
#[derive(Clone, Copy)]
enum Valued {
    Root,
    Values,
    Bytes,
}

// What was asked, as far as the words so far tell: the command; how many of the words are files; the root's name, if one is named; how
// many values and bytes the logger has room for, if that is told; whether required fields are asked for; whether a word can't be
// understood. `waiting` is an option that waits for its word.
#[derive(Clone, Copy)]
pub struct Asked<'a> {
    call: &'a [u8],
    pub is_script: bool,
    pub command: Option<Command>,
    waiting: Option<Valued>,
    pub files: usize,
    has_input: bool,
    pub root: Option<&'a [u8]>,
    pub values: Option<usize>,
    pub bytes: Option<usize>,
    pub is_required: bool,
    pub is_wrong: bool,
}

impl<'a> Asked<'a> {
    // Behind the command.
    fn begun(call: &'a [u8], command: &[u8], is_script: bool) -> Asked<'a> {
        Asked {
            call,
            is_script,
            command: Command::from_word(command),
            waiting: None,
            files: 0,
            has_input: false,
            root: None,
            values: None,
            bytes: None,
            is_required: false,
            is_wrong: false,
        }
    }

    // All that a call asks.
    pub fn new(call: &'a [u8], is_script: bool) -> Asked<'a> {
        let mut words = call.split(|b| *b == 0);
        let command = words.next().unwrap_or(&[]);
        let mut asked = Asked::begun(call, command, is_script);
        for word in words {
            asked.add(word);
        }
        asked.is_wrong = asked.is_wrong || asked.waiting.is_some();
        asked
    }

    // The file of number k, counted from 0; an empty word where there are fewer.
    pub fn file(&self, k: usize) -> &'a [u8] {
        let mut asked = Asked::begun(self.call, &[], self.is_script);
        for word in self.call.split(|b| *b == 0).skip(1) {
            asked.add(word);
            if asked.files > k {
                return word;
            }
        }
        &[]
    }

    // Whether it is told how much room the logger has.
    pub fn has_limits(&self) -> bool {
        self.values.is_some() || self.bytes.is_some()
    }

    // One word more. An empty word is none.
    fn add(&mut self, word: &'a [u8]) {
        if let Some(option) = self.waiting {
            self.waiting = None;
            self.add_value(option, word);
        } else if word.starts_with(b"--") {
            self.add_option(word);
        } else if !word.is_empty() {
            self.add_file(word);
        }
    }

    fn add_option(&mut self, word: &[u8]) {
        match word {
            b"--required" => self.is_required = true,
            b"--root" => self.waiting = Some(Valued::Root),
            b"--values" => self.waiting = Some(Valued::Values),
            b"--bytes" => self.waiting = Some(Valued::Bytes),
            _ => self.is_wrong = true,
        }
    }

    // The word of an option that waited for it.
    fn add_value(&mut self, option: Valued, word: &'a [u8]) {
        let is_good = match option {
            Valued::Root => {
                self.root = Some(word);
                !word.is_empty()
            }
            Valued::Values => {
                self.values = number::decimal(word);
                self.values.is_some()
            }
            Valued::Bytes => {
                self.bytes = number::decimal(word);
                self.bytes.is_some()
            }
        };
        self.is_wrong = self.is_wrong || !is_good;
    }

    // Standard input, `-`, can be one file and no more.
    fn add_file(&mut self, word: &[u8]) {
        let is_input = word == b"-".as_slice();
        self.files = self.files.saturating_add(1);
        self.is_wrong = self.is_wrong || is_input && self.has_input;
        self.has_input = is_input || self.has_input;
    }
}
