// Texts that are put into a lent buffer.
ghost use Rattle.std.specs.Prelude.{◌≡◌, ◌+◌, ◌≤◌, length, decimal};
ghost use Rattle.text.specs.Printing.{number_line, Put};

// A lent buffer, and where the next byte goes. The clauses `same` say that it stays the same buffer, which no type says.
// That `at` lies in the buffer is no invariant: each write asks for its room, which says more.
// No `write!` of a `Display`: by its contract it may fail where there is room, and a text that fits is not refused.
#[derive(Drop)]
pub struct Printer<'a> {
    pub buffer: &'a mut [u8],
    pub at: usize,
}

impl Printer<'_> {
    // Writes bytes after those that are written.
    pub fn put(&mut self, bytes: &[u8])
        requires { self.old.at + length bytes.now ≤ length self.old.buffer.now }
        ensures same { self.new.buffer.ghost_name ≡ self.old.buffer.ghost_name }
        ensures put { Put self.old.buffer.now self.old.at bytes.now self.new.buffer.now self.new.at }
    {
        let end = self.at + bytes.len();
        self.buffer[self.at..end].copy_from_slice(bytes);
        self.at = end;
    }

    // Writes a number in decimal.
    pub fn put_number(&mut self, n: u32)
        requires { self.old.at + length (decimal n) ≤ length self.old.buffer.now }
        ensures same { self.new.buffer.ghost_name ≡ self.old.buffer.ghost_name }
        ensures put { Put self.old.buffer.now self.old.at (decimal n) self.new.buffer.now self.new.at }
    {
        self.put(itoa::Buffer::new().format(n).as_bytes());
    }

    // Writes a line of three numbers.
    pub fn put_line(&mut self, a: u32, b: u32, c: u32)
        requires { self.old.at + length (number_line a b c) ≤ length self.old.buffer.now }
        ensures same { self.new.buffer.ghost_name ≡ self.old.buffer.ghost_name }
        ensures put { Put self.old.buffer.now self.old.at (number_line a b c) self.new.buffer.now self.new.at }
    {
        self.put_number(a);
        self.put(b" ");
        self.put_number(b);
        self.put(b" ");
        self.put_number(c);
        self.put(b"\n");
    }
}

// How many digits a number has.
pub fn number_length(n: u32) -> usize
    ensures exact { result ≡ length (decimal n) }
    ensures short { result ≤ 10 }
{
    itoa::Buffer::new().format(n).len()
}

// How long a line of three numbers is.
pub fn line_length(a: u32, b: u32, c: u32) -> usize
    ensures exact { result ≡ length (number_line a b c) }
    ensures short { result ≤ 33 }
{
    number_length(a) + number_length(b) + number_length(c) + 3
}
