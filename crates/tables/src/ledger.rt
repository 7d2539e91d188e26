// What is added to the standing feeds and notices, and struck out of them.
ghost use Rattle.std.specs.Prelude.{◌≡◌, ℕ, ◌<◌, ◌≤◌, [], ◌∷◌, ◌++◌, length, vec_len};
ghost use Rattle.std.specs.List.{remove};
ghost use Rattle.network.specs.Network.{Network, Proper};
ghost use Rattle.promise.specs.Promise.{Stands, feed_number, notice_number, acted, release, close, reopen};
ghost use Rattle.tables.specs.Standing.{Keeps, ledger_of, feed_of, feed_at, notice_at, left_at, taken_by, TakenOff, GivenBack};

use crate::rows::{Feed, Notice, Tables};

impl Tables {
    // Takes what the feed takes, and adds it to the standing feeds.
    pub fn add(&mut self, feed: Feed)
        requires { vec_len self.old.feeds < 32 }
        ensures feeds { (ledger_of self.new).feeds ≡ (ledger_of self.old).feeds ++ feed_of feed ∷ [] }
        ensures notices { self.new.notices ≡ self.old.notices }
        ensures circuits { vec_len self.new.circuits ≡ vec_len self.old.circuits }
        ensures left { TakenOff (feed_of feed) self.old self.new }
        ensures keeps { (n : Network) → Keeps n self.old → ¬ Stands feed_number feed.number (ledger_of self.old).feeds
            → ((c : ℕ) → c < length n.circuits → taken_by (feed_of feed) c ≤ left_at self.old c) → Keeps n self.new }
    {
        self.take(&feed);
        self.feeds.push_reserved(feed);
    }

    // Strikes out a standing feed, and gives back what it took.
    pub fn strike_feed(&mut self, i: usize)
        requires { i < vec_len self.old.feeds }
        ensures feeds { (ledger_of self.new).feeds ≡ remove (ledger_of self.old).feeds i }
        ensures notices { self.new.notices ≡ self.old.notices }
        ensures circuits { vec_len self.new.circuits ≡ vec_len self.old.circuits }
        ensures left { GivenBack (feed_at self.old i) self.old self.new }
        ensures keeps { (n : Network) → Proper n → Keeps n self.old
            → (ledger_of self.new ≡ acted (ledger_of self.old) (release (feed_at self.old i).number)) × Keeps n self.new }
    {
        let feed = self.feeds.remove(i);
        self.give_back(&feed);
    }

    // Adds a notice to the standing notices.
    pub fn note(&mut self, notice: Notice)
        requires { vec_len self.old.notices < 32 }
        ensures ledger { ledger_of self.new ≡ acted (ledger_of self.old) (close notice.number notice.circuit) }
        ensures feeds { self.new.feeds ≡ self.old.feeds }
        ensures circuits { self.new.circuits ≡ self.old.circuits }
        ensures keeps { (n : Network) → Keeps n self.old → ¬ Stands notice_number notice.number (ledger_of self.old).notices
            → Keeps n self.new }
    {
        self.notices.push_reserved(notice);
    }

    // Strikes out a standing notice.
    pub fn strike_notice(&mut self, i: usize)
        requires { i < vec_len self.old.notices }
        ensures notices { (ledger_of self.new).notices ≡ remove (ledger_of self.old).notices i }
        ensures feeds { self.new.feeds ≡ self.old.feeds }
        ensures circuits { self.new.circuits ≡ self.old.circuits }
        ensures keeps { (n : Network) → Keeps n self.old
            → (ledger_of self.new ≡ acted (ledger_of self.old) (reopen (notice_at self.old i).number)) × Keeps n self.new }
    {
        self.notices.remove(i);
    }
}
