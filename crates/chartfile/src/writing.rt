// Writing a chart's file into a buffer.
ghost use Rattle.std.specs.Prelude.{◌≡◌, ◌+◌, ◌*◌, ◌<◌, ◌≤◌, [], ◌∷◌, ◌++◌, map, length};
ghost use Rattle.chartfile.specs.Hex.{hex};
ghost use Rattle.chartfile.specs.Frames.{high, low, checked, line, lines};
ghost use Rattle.chartfile.specs.Kinds.{byte_of};
ghost use Rattle.chartfile.specs.File.{marked_from, home_frames};
ghost use Rattle.chart.specs.Shown.{state};
ghost use Rattle.chartfile.specs.Writing.{Room, Puts, Writes};

use crate::fault::ShortBuffer;
use crate::frame::{Frame, VERSION, sum_of};
use crate::hex::{LINE_END, digit_of};
use crate::kind::Kind;
use chart::Chart;
use measure::Measure;
use waterway::Leg;

// Writes the chart's file into the first places of a buffer, and says how long it is.
pub fn write<M: Measure>(chart: &Chart<M>, buffer: &mut [u8]) -> Result<usize, ShortBuffer>
    ensures { Writes (state chart.now) buffer.old result buffer.new }
{
    let legs = chart.legs();
    let pivots = chart.pivots();
    let marked = count_marked(pivots);
    let homes = usize::from(chart.home().is_some());
    if buffer.len() < 20 + 19 * legs.len() + 9 * marked + 9 * homes {
        return Err(ShortBuffer);
    }
    let mut writer = Writer { buffer, at: 0 };
    writer.put_frame(Frame::Head(chart.marks()));
    writer.put_legs(legs);
    writer.put_pivots(pivots);
    writer.put_home(chart.home());
    let count = 1 + legs.len() + marked + homes;
    // The cast loses nothing: there are at most 1,282.
    writer.put_frame(Frame::Last(count as u16));
    Ok(writer.at)
}

// How many marks are marked as pivots.
fn count_marked(pivots: &[bool]) -> usize
    ensures value { result ≡ length (marked_from 0 pivots.now) }
    ensures few { result ≤ length pivots.now }
{
    pivots.iter().filter(|marked| **marked).count()
}

// A buffer, and the place in it that is written next.
#[derive(Drop)]
struct Writer<'a> {
    buffer: &'a mut [u8],
    at: usize,
}

impl Writer<'_> {
    fn put(&mut self, byte: u8)
        requires { Room (byte ∷ []) self.old }
        ensures { Puts (byte ∷ []) self.old self.new }
    {
        self.buffer[self.at] = byte;
        self.at += 1;
    }

    // Writes a byte's two digits.
    fn put_digits(&mut self, byte: u8)
        requires { Room (hex (byte ∷ [])) self.old }
        ensures { Puts (hex (byte ∷ [])) self.old self.new }
    {
        self.put(digit_of(byte / 16));
        self.put(digit_of(byte % 16));
    }

    // Writes bytes, the one that makes them add up, and the line's end.
    fn put_line(&mut self, body: &[u8])
        requires { Room (hex (checked body.now) ++ 10 ∷ []) self.old }
        ensures { Puts (hex (checked body.now) ++ 10 ∷ []) self.old self.new }
    {
        for byte in body {
            self.put_digits(*byte);
        }
        self.put_digits(0u8.wrapping_sub(sum_of(body)));
        self.put(LINE_END);
    }

    fn put_frame(&mut self, frame: Frame)
        requires { Room (line frame) self.old }
        ensures { Puts (line frame) self.old self.new }
    {
        match frame {
            Frame::Head(marks) => self.put_head(marks),
            Frame::Entry(leg) => self.put_leg(leg),
            Frame::Pivot(mark) => self.put_number(Kind::Pivot, mark),
            Frame::Home(mark) => self.put_number(Kind::Home, mark),
            Frame::Last(count) => self.put_number(Kind::Last, count),
        }
    }

    fn put_head(&mut self, marks: u16)
        requires { Room (line (Frame.Head marks)) self.old }
        ensures { Puts (line (Frame.Head marks)) self.old self.new }
    {
        let [high, low] = bytes_of(marks);
        self.put_line(&[u8::from(Kind::Head), VERSION, high, low]);
    }

    fn put_number(&mut self, kind: Kind, number: u16)
        requires { Room (hex (checked (byte_of kind ∷ high number ∷ low number ∷ [])) ++ 10 ∷ []) self.old }
        ensures { Puts (hex (checked (byte_of kind ∷ high number ∷ low number ∷ [])) ++ 10 ∷ []) self.old self.new }
    {
        let [high, low] = bytes_of(number);
        self.put_line(&[u8::from(kind), high, low]);
    }

    fn put_leg(&mut self, leg: Leg)
        requires { Room (line (Frame.Entry leg)) self.old }
        ensures { Puts (line (Frame.Entry leg)) self.old self.new }
    {
        let kind = Frame::Entry(leg).kind();
        let [from_high, from_low] = bytes_of(leg.from);
        let [to_high, to_low] = bytes_of(leg.to);
        let [length_high, length_low] = bytes_of(leg.length);
        self.put_line(&[
            u8::from(kind),
            from_high,
            from_low,
            to_high,
            to_low,
            length_high,
            length_low,
            leg.locks,
        ]);
    }

    fn put_legs(&mut self, legs: &[Leg])
        requires { Room (lines (map Frame.Entry legs.now)) self.old }
        ensures { Puts (lines (map Frame.Entry legs.now)) self.old self.new }
    {
        for leg in legs {
            self.put_frame(Frame::Entry(*leg));
        }
    }

    fn put_pivots(&mut self, pivots: &[bool])
        requires few { length pivots.now ≤ 256 }
        requires room { Room (lines (map Frame.Pivot (marked_from 0 pivots.now))) self.old }
        ensures { Puts (lines (map Frame.Pivot (marked_from 0 pivots.now))) self.old self.new }
    {
        for (mark, marked) in (0u16..).zip(pivots) {
            if *marked {
                self.put_frame(Frame::Pivot(mark));
            }
        }
    }

    fn put_home(&mut self, home: Option<u16>)
        requires { Room (lines (home_frames home)) self.old }
        ensures { Puts (lines (home_frames home)) self.old self.new }
    {
        if let Some(mark) = home {
            self.put_frame(Frame::Home(mark));
        }
    }
}

// A number's two bytes, the high one first.
fn bytes_of(number: u16) -> [u8; 2]
    ensures { result ≡ high number ∷ low number ∷ [] }
{
    number.to_be_bytes()
}
