// The lines of the bench: numbers in decimal, gathered in a buffer. Document 01, "The bench program".

#![tactic(auto)]

ghost use Rattle.std.specs.Prelude.{◌≡◌, [], ◌∷◌, ◌++◌, ◌+◌, ◌≤◌, ◌<◌, length};

use tally::Tally;

// The most bytes of a line: eight numbers, each of at most 20 digits, with a blank or the line's end.
pub const LINE: usize = 168;

// What a record's line shows behind the record's number: document 01's numbers of the kind and of the answer, as they are printed.
#[derive(Clone, Copy)]
pub struct Line {
    pub kind: u64,
    pub number: u64,
    pub value: usize,
    pub tally: Tally,
}

// A buffer that is lent, and how many of its bytes are gathered. What is put goes behind these. That these stand within the buffer was
// tried as a ghost field, which no proof covers beside a `&mut`.
#[derive(Drop)]
pub struct Out<'a> {
    bytes: &'a mut [u8],
    len: usize,
}

impl<'a> Out<'a> {
    ghost use Rattle.lines.specs.Out.{gathered, room, Grown};
    ghost use Rattle.lines.specs.Lines.{item, ITEM, TALLY, LINE, tally_text, good_text, bad_text, shown_text};

    pub fn new(bytes: &'a mut [u8], len: usize) -> Out<'a>
        requires { len ≤ length bytes.old }
        ensures same_reference { result.bytes.ghost_name ≡ bytes.entry.ghost_name }
        ensures held { (result.bytes.now ≡ bytes.old) × (result.len ≡ len) }
    {
        Out { bytes, len }
    }

    // How many bytes are gathered.
    pub fn len(&self) -> usize
        ensures { result ≡ self.now.len }
    {
        self.len
    }

    pub fn gathered(&self) -> &[u8]
        requires { self.now.len ≤ length self.now.bytes.now }
        ensures { result.now ≡ gathered self.now }
    {
        &self.bytes[..self.len]
    }

    // How many bytes there is room for behind what is gathered.
    pub fn room(&self) -> usize
        requires { self.now.len ≤ length self.now.bytes.now }
        ensures { result ≡ room self.now }
    {
        self.bytes.len() - self.len
    }

    fn put_text(&mut self, text: &[u8])
        requires { self.old.len + length text.now ≤ length self.old.bytes.now }
        ensures same_reference { self.new.bytes.ghost_name ≡ self.old.bytes.ghost_name }
        ensures grown { Grown self.old (length text.now) self.new }
        ensures text { gathered self.new ≡ gathered self.old ++ text.now }
    {
        let Out { bytes, len } = self;
        let end = *len + text.len();
        bytes[*len..end].copy_from_slice(text);
        *len = end;
    }

    // A number's digits, and what stands behind it.
    fn put(&mut self, n: u64, behind: u8)
        requires { self.old.len + ITEM ≤ length self.old.bytes.now }
        ensures same_reference { self.new.bytes.ghost_name ≡ self.old.bytes.ghost_name }
        ensures grown { Grown self.old ITEM self.new }
        ensures text { gathered self.new ≡ gathered self.old ++ item n behind }
    {
        let mut text = [0; 20];
        let digits = io::decimal(n, &mut text);
        self.put_text(&text[..digits]);
        self.put_text(&[behind]);
    }

    // What each hand has, as a line's end.
    #[tactic(auto, unfolding(crate::specs::Lines::tally_text))]
    fn put_tally(&mut self, tally: Tally)
        requires { self.old.len + TALLY ≤ length self.old.bytes.now }
        ensures same_reference { self.new.bytes.ghost_name ≡ self.old.bytes.ghost_name }
        ensures grown { Grown self.old TALLY self.new }
        ensures text { gathered self.new ≡ gathered self.old ++ tally_text tally }
    {
        self.put(tally.free as u64, b' ');
        self.put(tally.receive as u64, b' ');
        self.put(tally.send as u64, b' ');
        self.put(tally.out as u64, b'\n');
    }

    // A record's line.
    #[tactic(auto, unfolding(crate::specs::Lines::good_text))]
    fn put_good(&mut self, count: u64, line: Line)
        requires { self.old.len + LINE ≤ length self.old.bytes.now }
        ensures same_reference { self.new.bytes.ghost_name ≡ self.old.bytes.ghost_name }
        ensures grown { Grown self.old LINE self.new }
        ensures text { gathered self.new ≡ gathered self.old ++ good_text count line }
    {
        self.put(count, b' ');
        self.put(line.kind, b' ');
        self.put(line.number, b' ');
        self.put(line.value as u64, b' ');
        self.put_tally(line.tally);
    }

    // The line of a bad record.
    #[tactic(auto, unfolding(crate::specs::Lines::bad_text))]
    pub fn put_bad(&mut self, count: u64)
        requires { self.old.len + LINE ≤ length self.old.bytes.now }
        ensures same_reference { self.new.bytes.ghost_name ≡ self.old.bytes.ghost_name }
        ensures grown { Grown self.old LINE self.new }
        ensures text { gathered self.new ≡ gathered self.old ++ bad_text count }
    {
        self.put_text(b"bad ");
        self.put(count, b'\n');
    }

    // The line of a record; a bad one shows nothing but its number.
    pub fn put_line(&mut self, count: u64, line: Option<Line>)
        requires { self.old.len + LINE ≤ length self.old.bytes.now }
        ensures same_reference { self.new.bytes.ghost_name ≡ self.old.bytes.ghost_name }
        ensures grown { Grown self.old LINE self.new }
        ensures text { gathered self.new ≡ gathered self.old ++ shown_text count line }
    {
        match line {
            Some(line) => self.put_good(count, line),
            None => self.put_bad(count),
        }
    }
}
