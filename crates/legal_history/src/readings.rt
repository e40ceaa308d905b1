// What is kept of the readings, of which a reader's number is its place.
ghost use Rattle.std.specs.Prelude.{◌≡◌, ◌∷◌, ◌++◌, [], length, true, IsOk, OnOk, OnErr};
ghost use Rattle.legal_history.specs.Agrees.{is_going_on};
ghost use Rattle.legal_history.specs.Recorded.{is_end};
ghost use Rattle.legal_history.specs.Rows.{last_of, looked, reading_at, done, noted_reading};

use history::Point;
use ss_base::Memory;
use std::alloc::Global;
use std::marker::Model;

// A reading by the number of its Look.
#[derive(Drop)]
struct Reading {
    look: u32,
    is_done: bool,
}

impl Model for Reading {
    ghost use Rattle.std.specs.Prelude.{◌∷◌, []};
    ghost use Rattle.legal_history.specs.Rows.{ReadingRow};

    ghost Value = { ReadingRow };

    ghost view = { λ r. record { looks = r.look ∷ []; is_done = r.is_done } };
}

impl Reading {
    fn new(look: u32) -> Reading
        ensures { result ≡ looked look }
    {
        Reading {
            look,
            is_done: false,
        }
    }

    fn look(&self) -> u32
        ensures { self.now.looks ≡ result ∷ [] }
    {
        self.look
    }

    fn is_done(&self) -> bool
        ensures { result ≡ self.now.is_done }
    {
        self.is_done
    }

    fn end(&mut self)
        ensures { self.new ≡ record self.old { is_done = true } }
    {
        self.is_done = true;
    }
}

#[derive(Drop)]
pub(crate) struct Readings {
    rows: Vec<Reading>,
}

impl Model for Readings {
    ghost use Rattle.std.specs.Prelude.{List};
    ghost use Rattle.legal_history.specs.Rows.{ReadingRow};

    ghost Value = { List ReadingRow };

    ghost view = { λ r. r.rows.items };
}

impl Readings {
    pub(crate) fn new(alloc: Global) -> Readings
        ensures { result ≡ [] }
    {
        Readings {
            rows: Vec::new(alloc),
        }
    }

    pub(crate) fn len(&self) -> usize
        ensures { result ≡ length self.now }
    {
        self.rows.len()
    }

    pub(crate) fn look(&self, reader: u32) -> Option<u32>
        ensures { result ≡ last_of (reading_at reader self.now).looks }
    {
        match self.rows.get(reader as usize) {
            Some(row) => Some(row.look()),
            None => None,
        }
    }

    pub(crate) fn is_done(&self, reader: u32) -> bool
        ensures { result ≡ (reading_at reader self.now).is_done }
    {
        match self.rows.get(reader as usize) {
            Some(row) => row.is_done(),
            None => false,
        }
    }

    pub(crate) fn is_unfinished(&self, reader: u32) -> bool
        ensures { result ≡ is_going_on (reading_at reader self.now) }
    {
        self.look(reader).is_some() && !self.is_done(reader)
    }

    // Notes what the entry with this number does to its reading.
    pub(crate) fn note(&mut self, number: u32, point: &Point) -> Result<(), Memory>
        ensures ok { OnOk result (self.new ≡ noted_reading number point.now self.old) }
        ensures err { OnErr result (self.new ≡ self.old) }
        ensures ends { is_end point.now ≡ true → IsOk result }
    {
        match point {
            Point::Look { seen: Some(_), .. } => self.begin(number),
            Point::Done { reader } => {
                self.end(*reader);
                Ok(())
            }
            _ => Ok(()),
        }
    }

    fn begin(&mut self, number: u32) -> Result<(), Memory>
        ensures ok { OnOk result (self.new ≡ self.old ++ looked number ∷ []) }
        ensures err { OnErr result (self.new ≡ self.old) }
    {
        self.rows.push(Reading::new(number))?;
        Ok(())
    }

    fn end(&mut self, reader: u32)
        ensures { self.new ≡ done reader self.old }
    {
        let place = reader as usize;
        if place < self.rows.len() {
            self.rows[place].end();
        }
    }
}
