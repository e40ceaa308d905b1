// What a caller holds between its calls.
ghost use Rattle.std.specs.Prelude.{◌≡◌};
ghost use Rattle.store_shared.specs.Sight.{base_profile, seen_by};

use ss_base::Profile;
use std::marker::Model;
use store_core::{Choice, Looked};
use turn_lock::Pass;

/// A session that was begun and has no pending choice.
#[derive(Drop)]
pub struct Session {
    pub(crate) pass: Pass,
    pub(crate) number: u32,
    pub(crate) profile: Profile,
}

impl Model for Session {
    ghost use Rattle.std.specs.Prelude.{◌≡◌};
    ghost use Rattle.store_shared.specs.Sight.{base_profile};
    ghost use Rattle.store_shared.specs.Tokens.{SessionToken};

    ghost Value = { SessionToken };

    ghost view = { λ s. record { pass = s.pass; session = s.number } };

    ghost invariant = { λ s. s.profile ≡ base_profile s.pass.base };
}

impl Session {
    pub(crate) fn new(pass: Pass, number: u32, profile: Profile) -> Session
        requires { profile ≡ base_profile pass.base }
        ensures { result ≡ record { pass = pass; session = number } }
    {
        Session {
            pass,
            number,
            profile,
        }
    }

    /// The session's number.
    pub fn number(&self) -> u32
        ensures { result ≡ self.now.session }
    {
        self.number
    }

    /// The store's profile.
    pub fn profile(&self) -> Profile
        ensures { result ≡ (seen_by self.now.pass).profile }
    {
        self.profile
    }
}

/// A session with a pending choice.
#[derive(Drop)]
pub struct Chosen {
    pub(crate) session: Session,
    pub(crate) choice: Choice,
}

impl Model for Chosen {
    ghost use Rattle.store_shared.specs.Tokens.{ChosenToken};

    ghost Value = { ChosenToken };

    ghost view = { λ c. record { pass = c.session.pass; session = c.session.session; choice = c.choice } };
}

impl Chosen {
    /// The choice: the manifest that the commit will have, and what is kept of the champions.
    pub fn choice(&self) -> &Choice
        ensures { result.now ≡ self.now.choice }
    {
        &self.choice
    }
}

/// A stream that is read.
#[derive(Drop)]
pub struct Reading {
    pub(crate) pass: Pass,
    pub(crate) looked: Looked,
}

impl Model for Reading {
    ghost use Rattle.store_shared.specs.Tokens.{ReadingToken};

    ghost Value = { ReadingToken };

    ghost view = { λ r. record { pass = r.pass; looked = r.looked } };
}

impl Reading {
    /// The stream: the reading's number, its session and what is kept of its manifests.
    pub fn looked(&self) -> &Looked
        ensures { result.now ≡ self.now.looked }
    {
        &self.looked
    }
}
