// What a command takes: how many words that follow no option, what each of them is, and which options.
ghost use Rattle.std.specs.Prelude.{◌≡◌};
ghost use Rattle.console.specs.Takes as spec;

// What a word is to the command: a file that it reads, one that it writes, or something else.
#[derive(Clone, Copy, Debug, PartialEq, Eq)]
pub enum Role {
    Image,
    Job,
    Text,
    Written,
    Other,
}

// `save` is an option that names a file to write, `replace` one that lets it write over another, `ways` those of `read`, `rows` one that names
// a text with a list of rows. Where a command takes one word, `second` is what standard input is to it.
#[derive(Clone, Copy, Debug, PartialEq, Eq)]
pub struct Takes {
    pub first: Role,
    pub second: Role,
    pub third: Role,
    pub least: usize,
    pub most: usize,
    pub key: bool,
    pub save: bool,
    pub replace: bool,
    pub ways: bool,
    pub rows: bool,
}

impl Takes {
    // So many words, and no option.
    pub fn words(first: Role, second: Role, least: usize, most: usize) -> Takes
        ensures { result ≡ spec.words first second least most }
    {
        Takes {
            first,
            second,
            third: Role::Other,
            least,
            most,
            key: false,
            save: false,
            replace: false,
            ways: false,
            rows: false,
        }
    }

    // An image, so many words with it, and a key to enter.
    pub fn on_image(second: Role, least: usize, most: usize) -> Takes
        ensures { result ≡ spec.on_image second least most }
    {
        Takes {
            key: true,
            ..Takes::words(Role::Image, second, least, most)
        }
    }

    // Besides, what a third word is.
    pub fn with_third(mut self, third: Role) -> Takes
        ensures { result ≡ spec.with_third self third }
    {
        self.third = third;
        self
    }

    // Besides, what a read is asked with.
    pub fn with_ways(mut self) -> Takes
        ensures { result ≡ spec.with_ways self }
    {
        self.ways = true;
        self
    }

    // Besides, a text with a list of rows.
    pub fn with_rows(mut self) -> Takes
        ensures { result ≡ spec.with_rows self }
    {
        self.rows = true;
        self
    }

    // Besides, leave to write over a file.
    pub fn with_replace(mut self) -> Takes
        ensures { result ≡ spec.with_replace self }
    {
        self.replace = true;
        self
    }

    // Besides, a name to save under, and leave to write over a file.
    pub fn with_save(mut self) -> Takes
        ensures { result ≡ spec.with_save self }
    {
        self.save = true;
        self.with_replace()
    }
}
