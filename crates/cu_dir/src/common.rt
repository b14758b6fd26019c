//! A folder of a tree that several workers use at once.
ghost use Rattle.std.specs.Prelude.{◌≡◌, ℕ, Bool, List, Option, IfOk, OnOk};
ghost use Rattle.cu_store.specs.Held.{Contents, Holds};
ghost use Rattle.cu_store.specs.Share.{Lent, KeysDiffer, IsPromiseOf, HoldsPromised, HoldsSeen};
ghost use Rattle.cu_store.specs.Yard.{MayPut, bytes_under};
ghost use Rattle.cu_dir.specs.Names.{IsFileKey};
ghost use Rattle.cu_dir.specs.Tree.{ReadsFile, values_under};
ghost use Rattle.cu_dir.specs.Common.{KnowsOf, LearnsAt, IsUnion, served_as, seen_among, IsLentAs, IsPutUnder};

use crate::keys::Keys;
use crate::tree::Tree;
use cu_store::{Got, Key, Promise};
use std::alloc::Global;
use std::io;

/// The values under a folder of a tree, which several workers use at once, each by a hand of its own. A value can be read, and the
/// promised bytes of a made key can be put in place in one step. There is no other call, so nothing that lies there goes away.
///
/// A hand knows what lies under the keys that it asked for, and goes on knowing it. What others have put it learns by asking.
pub trait Common {
    /// What a worker has for itself.
    type Hand: Drop;

    /// The keys that are lent, and what those are to hold that are made.
    ghost lent: { Self → Lent };

    /// The path of the folder.
    ghost folder: { Self → List ℕ };

    /// Whether the data of a new file is synced before it is put in place.
    ghost synced: { Self → Bool };

    /// The values that are only read, where the tree tells them.
    ghost entries: { Self → Option Contents };

    /// The values that a hand knows, where the tree tells them.
    ghost known: { Self.Hand → Option Contents };

    /// The folder's own hands.
    ghost owns: { Self → Self.Hand → Type 0 };

    /// What the folder's own hands may know.
    ghost laws: { (c : Self) (h : Self.Hand) → owns c h → KnowsOf (lent c) (entries c) (known h) };

    /// Copies as many bytes of the key's value as `buf` has room for, and says how long the value is.
    fn read(&self, hand: &mut Self::Hand, key: &Key, buf: &mut [u8]) -> io::Result<Got>
        requires own { owns self.now hand.old }
        ensures own { owns self.now hand.new }
        ensures read { ReadsFile (known hand.new) key.now buf.new result }
        ensures learned { LearnsAt (lent self.now) key.now (known hand.old) (known hand.new) }
        ensures inside { OnOk result (IsFileKey key.now) };

    /// Puts these bytes in place of the value, by way of a new file whose name has this number or one of the next.
    fn put(&self, hand: &mut Self::Hand, key: &Key, number: u64, bytes: &[u8]) -> io::Result<()>
        requires own { owns self.now hand.old }
        requires may { MayPut (served_as (lent self.now) (entries self.now)) key.now bytes.now }
        ensures own { owns self.now hand.new }
        ensures stored { OnOk result (Holds (known hand.new) key.now bytes.now) }
        ensures learned { LearnsAt (lent self.now) key.now (known hand.old) (known hand.new) }
        ensures inside { OnOk result (IsFileKey key.now) };

    /// A second hand that knows the same.
    fn split(&self, hand: &mut Self::Hand) -> Self::Hand
        requires { owns self.now hand.old }
        ensures own { owns self.now hand.new × owns self.now result }
        ensures same { (known hand.new ≡ known hand.old) × (known result ≡ known hand.old) };

    /// Takes in what another hand knows.
    fn join(&self, hand: &mut Self::Hand, other: Self::Hand)
        requires { owns self.now hand.old × owns self.now other }
        ensures own { owns self.now hand.new }
        ensures both { IsUnion (known hand.old) (known other) (known hand.new) };
}

/// A tree of which a folder can be lent to several workers.
pub trait Lend: Tree {
    /// A folder of it that several workers use at once.
    type Common: Common;

    /// Lends the values under this folder to several workers. The made keys hold nothing but the promised bytes. A hand that knows
    /// what lies there comes with it. Until it is taken back, no other call is made.
    fn lend(
        &mut self,
        alloc: Global,
        folder: &str,
        keys: &Keys,
        promise: &Promise,
    ) -> io::Result<(Self::Common, <Self::Common as Common>::Hand)>
        requires apart { KeysDiffer keys.now }
        requires promise { IsPromiseOf keys.now (bytes_under promise.now.map) }
        requires held { HoldsPromised (record { specs = keys.now; promise = bytes_under promise.now.map }) (values_under folder.now (Self.files self.old)) }
        ensures own { IfOk result (λ r. Self.Common.owns r.0 r.1) }
        ensures lent { IfOk result (λ r. Self.Common.lent r.0 ≡ record { specs = keys.now; promise = bytes_under promise.now.map }) }
        ensures folder { IfOk result (λ r. Self.Common.folder r.0 ≡ folder.now) }
        ensures synced { IfOk result (λ r. Self.Common.synced r.0 ≡ Self.synced self.old) }
        ensures known { IfOk result (λ r. IsLentAs keys.now (values_under folder.now (Self.files self.old)) (Self.Common.known r.1)) }
        ensures kept { Self.files self.new ≡ Self.files self.old }
        ensures as_set { Self.synced self.new ≡ Self.synced self.old };

    /// Takes back what it has lent of this folder: what the hand knows to be there is there, and no file is changed but those of made
    /// keys.
    fn take_back(
        &mut self,
        folder: &str,
        common: Self::Common,
        hand: <Self::Common as Common>::Hand,
    )
        requires own { Self.Common.owns common hand }
        requires held { HoldsPromised (Self.Common.lent common) (values_under folder.now (Self.files self.old)) }
        ensures held { HoldsSeen (Self.Common.lent common) (seen_among (Self.Common.lent common).specs (Self.Common.known hand)) (values_under folder.now (Self.files self.new)) }
        ensures put { IsPutUnder folder.now (Self.Common.lent common) (Self.files self.old) (Self.files self.new) }
        ensures as_set { Self.synced self.new ≡ Self.synced self.old };
}
