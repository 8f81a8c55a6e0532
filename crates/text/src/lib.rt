// Text written into a lent buffer, each function from a place on and up to the place that it answers.
#![tactic(auto)]

ghost use Rattle.std.specs.Prelude.{◌≡◌, ◌+◌, ◌%◌, ◌≤◌, ◌<◌, length};
ghost use Rattle.text.specs.Digits.{char_of, decimal as Digits·decimal};
ghost use Rattle.text.specs.Out.{hand_size, frame_size, bad_size, script_size, hand_line, frame_line, script_line};
ghost use Rattle.text.specs.Out.{bad_line};
ghost use Rattle.text.specs.Write.{Wrote};

// Bytes of the longest hand line, of a frame line and of a frame in a script.
pub const HAND_SIZE: usize = 13;

pub const FRAME_SIZE: usize = 8;

pub const SCRIPT_SIZE: usize = 4;

// A text as it is.
pub fn put(out: &mut [u8], at: usize, text: &[u8]) -> usize
    requires { at + length text.now ≤ length out.old }
    ensures { Wrote text.now at out.old result out.new }
{
    let end = at + text.len();
    byte_runs::copy(text, &mut out[at..end]);
    end
}

// The character of a number's last hexadecimal digit.
fn hex_char(v: u16) -> u8
    ensures { result ≡ char_of (v % 16) }
{
    let d = (v % 16) as u8;
    if d < 10 { 48 + d } else { 87 + d }
}

// A number in decimal.
fn decimal(out: &mut [u8], at: usize, n: usize) -> usize
    requires { at + length (Digits·decimal n) ≤ length out.old }
    ensures { Wrote (Digits·decimal n) at out.old result out.new }
{
    if n < 10 {
        return put(out, at, &[48 + n as u8]);
    }
    let next = decimal(out, at, n / 10);
    put(out, next, &[48 + (n % 10) as u8])
}

// "hand", the device, the byte and the end bit.
pub fn hand_line(out: &mut [u8], at: usize, device: usize, byte: u8, end: u8) -> usize
    requires { (device < 100) × (at + hand_size ≤ length out.old) }
    ensures { Wrote (hand_line device byte end) at out.old result out.new }
{
    let b = byte as u16;
    let rest = [
        b' ',
        hex_char(b / 16),
        hex_char(b),
        b' ',
        hex_char(end as u16),
        b'\n',
    ];
    let number = put(out, at, b"hand ");
    let fields = decimal(out, number, device);
    put(out, fields, &rest)
}

// The frame put and the frame out.
pub fn frame_line(out: &mut [u8], at: usize, sent: u16, got: u16) -> usize
    requires { at + frame_size ≤ length out.old }
    ensures { Wrote (frame_line sent got) at out.old result out.new }
{
    let line = [
        hex_char(sent / 16 / 16),
        hex_char(sent / 16),
        hex_char(sent),
        b' ',
        hex_char(got / 16 / 16),
        hex_char(got / 16),
        hex_char(got),
        b'\n',
    ];
    put(out, at, &line)
}

// A frame as a script has it.
pub fn script_line(out: &mut [u8], at: usize, frame: u16) -> usize
    requires { at + script_size ≤ length out.old }
    ensures { Wrote (script_line frame) at out.old result out.new }
{
    let line = [
        hex_char(frame / 16 / 16),
        hex_char(frame / 16),
        hex_char(frame),
        b'\n',
    ];
    put(out, at, &line)
}

// "bad" and the number of a line.
pub fn bad_line(out: &mut [u8], number: usize) -> usize
    requires { (number < 100000) × (bad_size ≤ length out.old) }
    ensures { Wrote (bad_line number) 0 out.old result out.new }
{
    let word = put(out, 0, b"bad ");
    let digits = decimal(out, word, number);
    put(out, digits, b"\n")
}
