// The lines of a text: where one ends, and its fields, a separator and a decimal number each, read byte by byte.
#![tactic(auto)]

ghost use Rattle.std.specs.Prelude.{◌≡◌, cond, ◌+◌, ◌==◌, drop, position};
ghost use Rattle.std.specs.Option.{unwrap_or};
ghost use Rattle.line_fields.specs.Fields.{no_field, one_field, scan_of, invalid, begun, grown, step, fields_by, fields_from, in_fields, fields_at, line_length, numbers_if};

// The fields read so far: whether they are valid, whether the last has no digit yet, how many are begun, and their numbers. Flags, and not an
// enum: `fields_from` and the theorems `all_read` and `unspelled` speak of them, and of how far a line was read that is not valid.
#[derive(Clone, Copy)]
pub struct Fields {
    pub valid: bool,
    pub empty: bool,
    pub count: usize,
    pub numbers: [u32; 6],
}

// The fields that were read of a text, and where they end.
#[derive(Clone, Copy)]
pub struct Scanned {
    pub fields: Fields,
    pub end: usize,
}

// The place of a scan: the fields read so far with the last number alone.
#[derive(Clone, Copy)]
struct Scan {
    valid: bool,
    empty: bool,
    count: usize,
    number: u32,
}

impl Fields {
    // The numbers, with zeros behind them, where the fields are so many of them.
    pub fn numbers_if(self, count: usize) -> Option<[u32; 6]>
        ensures { result ≡ numbers_if self count }
    {
        (self.valid & !self.empty & (self.count == count)).then_some(self.numbers)
    }
}

// Whether a byte is one of fields: a separator or a digit.
#[tactic(auto, unfolding(crate::specs::Fields::in_fields))]
fn in_fields(separator: u8, byte: u8) -> bool
    ensures { result ≡ in_fields separator byte }
{
    (byte == separator) | byte.is_ascii_digit()
}

impl Scan {
    // Before the first field, or with the first begun.
    #[tactic(auto, unfolding(crate::specs::Fields::scan_of, crate::specs::Fields::no_field, crate::specs::Fields::one_field))]
    fn start(first: bool) -> Scan
        ensures { result ≡ scan_of (cond first one_field no_field) }
    {
        Scan {
            valid: true,
            empty: first,
            count: usize::from(first),
            number: 0,
        }
    }

    // After a separator one more field is begun; none where the last has no digit or six are begun.
    #[tactic(auto, unfolding(crate::specs::Fields::begun, crate::specs::Fields::invalid))]
    fn begun(self) -> Option<Scan>
        ensures { unwrap_or result (invalid self) ≡ begun self }
    {
        if self.empty || 6 <= self.count {
            return None;
        }
        Some(Scan {
            valid: true,
            empty: true,
            count: self.count + 1,
            number: 0,
        })
    }

    // After a digit the last number goes on; none where no field is begun, the number is a zero, or it grows too large.
    #[tactic(auto, unfolding(crate::specs::Fields::grown, crate::specs::Fields::invalid))]
    fn grown(self, digit: u32) -> Option<Scan>
        ensures { unwrap_or result (invalid self) ≡ grown self digit }
    {
        if self.count < 1 || (!self.empty && self.number == 0) {
            return None;
        }
        let number = self.number.checked_mul(10)?.checked_add(digit)?;
        Some(Scan {
            valid: true,
            empty: false,
            number,
            ..self
        })
    }

    // After one more byte, where it goes on.
    #[tactic(auto, unfolding(crate::specs::Fields::step, crate::specs::Fields::invalid))]
    fn next(self, separator: u8, byte: u8) -> Option<Scan>
        ensures { unwrap_or result (invalid self) ≡ step separator self byte }
    {
        match byte {
            _ if !self.valid => None,
            _ if byte == separator => self.begun(),
            b'0'..=b'9' => self.grown(u32::from(byte - b'0')),
            _ => None,
        }
    }

    // After one more byte; what does not go on is no longer valid.
    #[tactic(auto, unfolding(crate::specs::Fields::invalid))]
    fn after(self, separator: u8, byte: u8) -> Scan
        ensures { result ≡ step separator self byte }
    {
        self.next(separator, byte).unwrap_or(Scan {
            valid: false,
            ..self
        })
    }

    // The fields read at this place, with these numbers.
    #[tactic(auto, unfolding(crate::specs::Fields::fields_by))]
    fn fields(self, numbers: [u32; 6]) -> Fields
        ensures { result ≡ fields_by self numbers }
    {
        Fields {
            valid: self.valid,
            empty: self.empty,
            count: self.count,
            numbers,
        }
    }
}

// Reads fields from a place of a text on, with the first begun or none, up to the first byte that is none of fields.
pub fn read_fields(text: &[u8], place: usize, separator: u8, first: bool) -> Scanned
    ensures { result ≡ fields_at separator first text.now place }
{
    let mut scan = Scan::start(first);
    let mut numbers = [0u32; 6];
    for at in place..text.len() {
        if !in_fields(separator, text[at]) {
            return Scanned {
                fields: scan.fields(numbers),
                end: at,
            };
        }
        scan = scan.after(separator, text[at]);
        numbers[scan.count.saturating_sub(1)] = scan.number;
    }
    Scanned {
        fields: scan.fields(numbers),
        end: place.max(text.len()),
    }
}

// The fields of a line from a place on, a separator before each.
pub fn fields_from(line: &[u8], place: usize, separator: u8) -> Fields
    ensures { result ≡ fields_from separator no_field (drop place line.now) }
{
    let Scanned { fields, end } = read_fields(line, place, separator, false);
    Fields {
        valid: fields.valid & (line.len() <= end),
        ..fields
    }
}

// Where the newline of a line stands, if it has one.
fn newline(line: &[u8]) -> Option<usize>
    ensures { result ≡ position (λ byte. byte == 10) line.now }
{
    line.iter().position(|byte| *byte == b'\n')
}

// The end of the line that begins at a place: where its newline stands, or the end of the text. A place beyond the end is its own.
#[tactic(auto, using(crate::proofs::Scanning::line_inside, crate::proofs::Scanning::line_none))]
pub fn line_end(text: &[u8], place: usize) -> usize
    ensures { result ≡ place + line_length (drop place text.now) }
{
    match text.get(place..) {
        Some(line) => place + newline(line).unwrap_or(line.len()),
        None => place,
    }
}
