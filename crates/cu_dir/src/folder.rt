//! A folder of a tree with several handles, for several workers.
ghost use Rattle.std.specs.Prelude.{◌≡◌, IfOk, string_bytes};
ghost use Rattle.cu_store.specs.Share.{HoldsPromised};
ghost use Rattle.cu_store.specs.Yard.{bytes_under};
ghost use Rattle.cu_dir.specs.Common.{LearnsAt, IsUnion, IsLentAs};
ghost use Rattle.cu_dir.specs.Folder.{loan_lent, loan_folder, common_lent, common_folder, synced_by, entries_by, known_by, IsFolderHand, folder_laws};
ghost use Rattle.cu_dir.specs.Tree.{values_under};

use crate::common::Common;
use crate::keys::Keys;
use crate::tree::Tree;
use crate::values::{get_value, put_value};
use cu_store::{Got, Key, Promise};
use std::alloc::Global;
use std::io;
use std::snapshot::Snapshot;

/// What is lent: the keys under a folder, and what those are to hold that are made. Keys and promise are known to the proofs alone.
#[derive(Drop)]
pub struct Loan {
    alloc: Global,
    folder: String,
    keys: Snapshot<Keys>,
    promise: Snapshot<Promise>,
}

impl Loan {
    /// These keys under this folder, with their promise.
    pub(crate) fn new(alloc: Global, folder: String, keys: &Keys, promise: &Promise) -> Loan
        ensures lent { loan_lent result ≡ record { specs = keys.now; promise = bytes_under promise.now.map } }
        ensures folder { loan_folder result ≡ string_bytes folder }
    {
        Loan {
            alloc,
            folder,
            keys: Snapshot::of(keys),
            promise: Snapshot::of(promise),
        }
    }
}

/// A tree to which there may be several handles at once, as there are to the files of a system.
pub trait Handles: Tree {
    /// A handle that goes on where another was that knew this much. Under the key it may find what others have put there meanwhile,
    /// the promised bytes; else it knows the same values.
    fn go_on(&self, known: &Snapshot<Self>, loan: &Loan, key: &Key) -> io::Result<Self>
        ensures found { IfOk result (λ t. LearnsAt (loan_lent loan.now) key.now (values_under (loan_folder loan.now) (Self.files known.now.value)) (values_under (loan_folder loan.now) (Self.files t))) }
        ensures as_set { IfOk result (λ t. Self.synced t ≡ Self.synced self.now) };

    /// What two handles knew, in one. The proofs alone know it.
    fn unite(&self, one: &Snapshot<Self>, other: &Snapshot<Self>) -> Snapshot<Self>
        ensures both { IsUnion (Self.files one.now.value) (Self.files other.now.value) (Self.files result.value) }
        ensures same { Self.files one.now.value ≡ Self.files other.now.value → Self.files result.value ≡ Self.files one.now.value };
}

/// A folder of a tree with several handles: each call takes one of its own.
#[derive(Drop)]
pub struct Folder<T: Drop> {
    tree: T,
    loan: Loan,
}

/// What a worker has for itself: what it knows of the tree, for the proofs alone.
#[derive(Drop)]
pub struct FolderHand<T> {
    known: Snapshot<T>,
    folder: Snapshot<String>,
}

impl<T: Handles + Drop> Folder<T> {
    /// What is lent of this tree, and a hand that knows what the tree tells. The made keys hold nothing but the promised bytes.
    #[tactic(auto, using(crate::proofs::FolderLemmas::knows_first, crate::proofs::FolderLemmas::lent_first))]
    pub(crate) fn new(tree: T, loan: Loan) -> (Folder<T>, FolderHand<T>)
        requires held { HoldsPromised (loan_lent loan) (values_under (loan_folder loan) (T.files tree)) }
        ensures own { IsFolderHand T.files result.0 result.1 }
        ensures lent { common_lent result.0 ≡ loan_lent loan }
        ensures folder { common_folder result.0 ≡ loan_folder loan }
        ensures synced { synced_by T.synced result.0 ≡ T.synced tree }
        ensures known { IsLentAs (loan_lent loan).specs (values_under (loan_folder loan) (T.files tree)) (known_by T.files result.1) }
    {
        let hand = FolderHand {
            known: Snapshot::of(&tree),
            folder: Snapshot::of(&loan.folder),
        };
        (Folder { tree, loan }, hand)
    }
}

impl<T: Handles + Drop> Common for Folder<T> {
    type Hand = FolderHand<T>;

    ghost lent = { common_lent };

    ghost folder = { common_folder };

    ghost synced = { synced_by T.synced };

    ghost entries = { entries_by T.files };

    ghost known = { known_by T.files };

    ghost owns = { IsFolderHand T.files };

    ghost laws = { folder_laws T.files };

    fn read(&self, hand: &mut FolderHand<T>, key: &Key, buf: &mut [u8]) -> io::Result<Got> {
        let mut tree = self.tree.go_on(&hand.known, &self.loan, key)?;
        let answer = get_value(
            &mut tree,
            self.loan.alloc,
            self.loan.folder.as_str(),
            key,
            buf,
        );
        hand.known = Snapshot::of(&tree);
        answer
    }

    fn put(
        &self,
        hand: &mut FolderHand<T>,
        key: &Key,
        number: u64,
        bytes: &[u8],
    ) -> io::Result<()> {
        let mut tree = self.tree.go_on(&hand.known, &self.loan, key)?;
        let answer = put_value(
            &mut tree,
            self.loan.alloc,
            self.loan.folder.as_str(),
            key,
            number,
            bytes,
        );
        hand.known = Snapshot::of(&tree);
        answer
    }

    fn split(&self, hand: &mut FolderHand<T>) -> FolderHand<T> {
        FolderHand {
            known: self.tree.unite(&hand.known, &hand.known),
            folder: Snapshot::of(&self.loan.folder),
        }
    }

    fn join(&self, hand: &mut FolderHand<T>, other: FolderHand<T>) {
        hand.known = self.tree.unite(&hand.known, &other.known);
    }
}
