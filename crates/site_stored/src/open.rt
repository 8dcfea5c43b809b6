//! Opening the site that a store holds.

ghost use Rattle.std.specs.Prelude.{◌≡◌, ◌<◌, ◌≤◌, ℕ, ◌∷◌, IfErr, IfOk, IfSome, IsErrOf, List, MatchResult, OnOk, Some, None, length};
ghost use Rattle.std.specs.FinMap as finite;
ghost use Rattle.std.specs.List.{AllByRecursion};
ghost use Rattle.sqlite_value.specs.Order.{Row as Columns};
ghost use Rattle.sqlite_trees.specs.View.{IsClean};
ghost use Rattle.verification.specs.Records.{Credential};
ghost use Rattle.site_rows.specs.Held.{Placed};
ghost use Rattle.site_rows.specs.Rows.{credential_row};
ghost use Rattle.site_stored.specs.Causes.{IfOpenStore, IsStartCaused, OpenFails};
ghost use Rattle.site_stored.specs.State.{HasKey, HasMark, HasParty, HoldsSite, site_row, site_tree};
ghost use Rattle.site_stored.specs.Private.{IsUpTo, IsSettled, ReadingFails, LacksMemory, IsNumber, HadNoRow, IsNotOlder};
ghost use Rattle.site_stored.specs.declared.failure.OpenFailure.TheVariants as opens;
ghost use Rattle.site_rows.specs.Calls.{IfClean, HasCursor, IsQuiet, Reads};
ghost use Rattle.site_rows.specs.Trees.{credential_tree, HasTable};
ghost use Rattle.site_stored.specs.Starts.{IsOpened};

use crate::create::Bounds;
use crate::failure::OpenFailure;
use crate::kept::StoredSite;
use crate::key::read_key;
use crate::marks::read_mark;
use crate::rows::{VERSION, site_row};
use crate::scan::{begin_scan, has_trees, rest};
use crate::site_store::SiteStore;
use crate::trees::SITE_TREE;
use site_rows::{CREDENTIAL_TREE, RowError, int_at, read_credential};
use sqlite_trees::error::StoreError;
use sqlite_trees::store::Store;
use sqlite_value::row::Row;
use std::alloc::Global;
use verification::{Policy, RelyingParty};

/// The number of the next session in the row of a relying party.
fn next_in(alloc: Global, rp_id: &str, row: &Row) -> Result<u64, OpenFailure>
    ensures row { IfOk result (λ next. row.now ≡ site_row rp_id.now next) }
    ensures limits { IfOk result IsNumber }
    ensures age { IsNotOlder result }
    ensures cause { LacksMemory result }
{
    let Some(next) = int_at(row, 4) else {
        return Err(OpenFailure::NoSite);
    };
    if next < 1 {
        return Err(OpenFailure::NoSite);
    }
    let next = next as u64;
    let written = site_row(alloc, rp_id, next)?;
    if row.is_same(&written) {
        return Ok(next);
    }
    match int_at(row, 2) {
        Some(version) if version > VERSION => Err(OpenFailure::Newer),
        _ => Err(OpenFailure::OtherSite),
    }
}

/// The row of the relying party.
fn read_site<S: Store>(alloc: Global, rp_id: &str, store: &mut S) -> Result<u64, OpenFailure>
    requires table { IfClean (S.Store.view store.old) (HasTable site_tree) }
    ensures row { IfOk result (λ next. IsClean (S.Store.view store.new) → HasParty rp_id.now next (S.Store.view store.old).trees) }
    ensures limits { IfOk result IsNumber }
    ensures reads { Reads S.Store store.old store.new result }
    ensures age { IsNotOlder result }
    ensures cause { ReadingFails S.Store store.old store.new result }
{
    let mut row = Row::new(alloc);
    if !store.get(SITE_TREE, 1, &mut row)? {
        return Err(OpenFailure::NoSite);
    }
    next_in(alloc, rp_id, &row)
}

/// The place of a credential's row.
fn place_of(alloc: Global, row: &Row) -> Result<u32, OpenFailure>
    ensures place { IfOk result (λ n. (p : ℕ) (c : Credential) → row.now ≡ credential_row p c → p ≡ n) }
    ensures age { IsNotOlder result }
    ensures cause { LacksMemory result }
{
    let Some(place) = int_at(row, 0) else {
        return Err(OpenFailure::BadRow);
    };
    let Ok(place) = u32::try_from(place) else {
        return Err(OpenFailure::BadRow);
    };
    match read_credential(alloc, place, row) {
        Ok(_credential) => Ok(place),
        Err(RowError::BadRow) => Err(OpenFailure::BadRow),
        Err(RowError::Memory) => Err(OpenFailure::Failed(StoreError::OutOfMemory)),
    }
}

/// The place of the row at the cursor, which is taken; none if none is there.
fn next_place<S: Store>(
    alloc: Global,
    store: &mut S,
    row: &mut Row,
) -> Result<Option<u32>, OpenFailure>
    requires live { HasCursor (S.Store.view store.old) }
    ensures live { OnOk result (HasCursor (S.Store.view store.new)) }
    ensures place { IfOk result (λ found. IfSome found (λ n. IsClean (S.Store.view store.new) → (left : List Columns) → (S.Store.view store.old).cursors 0 ≡ Some left
        → (more : List Columns) × (left ≡ row.new ∷ more) × ((S.Store.view store.new).cursors 0 ≡ Some more) × IsUpTo n row.new)) }
    ensures ended { IfOk result (λ found. found ≡ None → HadNoRow (S.Store.view store.old) (S.Store.view store.new)) }
    ensures reads { Reads S.Store store.old store.new result }
    ensures age { IsNotOlder result }
    ensures cause { ReadingFails S.Store store.old store.new result }
{
    if !store.next(0, row)? {
        return Ok(None);
    }
    let place = place_of(alloc, row)?;
    Ok(Some(place))
}

/// How many credentials there are, and the highest place.
#[derive(Drop)]
struct Count {
    count: u32,
    last: u32,
}

/// Counts the credentials. Each is read, so that a damaged row is found.
fn count_rows<S: Store>(alloc: Global, store: &mut S) -> Result<Count, OpenFailure>
    ensures counted { IfOk result (λ x. IsClean (S.Store.view store.new) → (length ((S.Store.view store.old).trees credential_tree) ≡ x.count)
        × AllByRecursion (IsUpTo x.last) ((S.Store.view store.old).trees credential_tree)) }
    ensures reads { Reads S.Store store.old store.new result }
    ensures age { IsNotOlder result }
    ensures cause { ReadingFails S.Store store.old store.new result }
{
    begin_scan(alloc, store, CREDENTIAL_TREE)?;
    let mut row = Row::new(alloc);
    let mut last = 0;
    for count in 0..u32::MAX {
        let Some(place) = next_place(alloc, store, &mut row)? else {
            return Ok(Count { count, last });
        };
        last = u32::max(last, place);
    }
    Err(OpenFailure::TooMany)
}

/// What a store holds of a site besides its credentials.
#[derive(Drop)]
struct FoundSite {
    next: u64,
    key: [u8; 32],
    mark: u64,
    count: u32,
    last: u32,
}

/// That all numbers up to this one may have been given.
fn check_age(next: u64, at_least: u64) -> Result<(), OpenFailure>
    ensures newer { OnOk result (at_least < next) }
    ensures older { IfErr result (λ e. (e ≡ opens.Older) × (next ≤ at_least)) }
{
    if next <= at_least {
        return Err(OpenFailure::Older);
    }
    Ok(())
}

/// Reads the site that a store holds, where a session may have had this number.
fn read_all<S: Store>(
    alloc: Global,
    rp_id: &str,
    at_least: u64,
    store: &mut S,
) -> Result<FoundSite, OpenFailure>
    ensures found { IfOk result (λ f. IsClean (S.Store.view store.new) → (placed : Placed) (next : ℕ) → HoldsSite placed rp_id.now next (S.Store.view store.new).trees
        → (f.next ≡ next) × (finite.len placed ≡ f.count) × ((p : ℕ) (c : Credential) → finite.get placed p ≡ Some c → p ≤ f.last)) }
    ensures party { IfOk result (λ f. IsClean (S.Store.view store.new) → HasParty rp_id.now f.next (S.Store.view store.new).trees) }
    ensures key { IfOk result (λ f. IsClean (S.Store.view store.new) → HasKey f.key (S.Store.view store.new).trees) }
    ensures mark { IfOk result (λ f. IsClean (S.Store.view store.new) → HasMark f.mark (S.Store.view store.new).trees) }
    ensures limits { IfOk result (λ f. IsNumber f.next) }
    ensures newer { IfOk result (λ f. at_least < f.next) }
    ensures ready { OnOk result (IfClean (S.Store.view store.new) IsSettled) }
    ensures older { IsErrOf result opens.Older → IsClean (S.Store.view store.new)
        → (next : ℕ) × HasParty rp_id.now next (S.Store.view store.new).trees × (next ≤ at_least) }
    ensures cause { OpenFails S.Store store.old store.new result }
    ensures quiet { IsQuiet S.Store store.old store.new }
{
    rest(store)?;
    if !has_trees(store) {
        return Err(OpenFailure::NoSite);
    }
    let next = read_site(alloc, rp_id, store)?;
    check_age(next, at_least)?;
    let key = read_key(alloc, store)?;
    let mark = read_mark(alloc, store)?;
    let counted = count_rows(alloc, store)?;
    Ok(FoundSite {
        next,
        key,
        mark,
        count: counted.count,
        last: counted.last,
    })
}

/// What a site is opened as.
#[derive(Drop)]
pub struct Opening {
    /// The relying party.
    pub party: RelyingParty,
    /// Which attestations it accepts.
    pub policy: Policy,
    /// How much it may have.
    pub bounds: Bounds,
    /// What was `known` of the site when it was last told, and 0 where nothing is: the number of a session that was begun does too.
    pub at_least: u64,
}

impl<S: Store> StoredSite<S> {
    /// The site that a store holds, of this relying party. The numbers of sessions go on, and those that are open stay so. Nothing is written; what an
    /// earlier transaction of the store has not committed is undone. `life` is a random number, the mark of the next commit.
    ///
    /// `NoSite` where the trees are not those of a site, `Newer` and `OtherSite` where their version or rp id is another, `Older`
    /// where no session can have had the number `at_least`, `TooMany` and `BadRow` where a row is no credential's, `Failed` where the
    /// disk or memory failed. The store is handed back.
    pub fn open(
        alloc: Global,
        opening: Opening,
        life: u64,
        mut store: S,
    ) -> Result<StoredSite<S>, (OpenFailure, S)>
        ensures opened { IfOk result (IsOpened S.Store.view opening) }
        // The next commit follows the last one.
        ensures marks { IfOk result (λ s. (s.next_mark ≡ life) × (IsClean (S.Store.view s.store) → HasMark s.mark (S.Store.view s.store).trees)) }
        // It is what an open could find before.
        ensures found { IfOk result (λ s. IsClean (S.Store.view s.store) → S.Store.recovers store (S.Store.view s.store).trees) }
        // A store is an older one only where no session can have had the number.
        ensures older { IfErr result (λ e. e.0 ≡ opens.Older → IsClean (S.Store.view e.1)
            → (next : ℕ) × HasParty opening.party.rp_id next (S.Store.view e.1).trees × (next ≤ opening.at_least)) }
        ensures cause { IfErr result (λ e. IsClean (S.Store.view e.1) → IfOpenStore (IsStartCaused (S.Store.view store) (S.Store.faults store) (S.Store.faults e.1) ⊥) e.0) }
        ensures quiet { MatchResult result (λ s. IsQuiet S.Store store s.store) (λ e. IsQuiet S.Store store e.1) }
    {
        let Opening {
            party,
            policy,
            bounds,
            at_least,
        } = opening;
        match read_all(alloc, party.rp_id(), at_least, &mut store) {
            Ok(found) => {
                let key = found.key;
                Ok(StoredSite {
                    party,
                    policy,
                    key,
                    lifetime: bounds.lifetime,
                    next: found.next,
                    mark: found.mark,
                    next_mark: life,
                    count: found.count,
                    last: found.last,
                    most: bounds.credentials,
                    held: SiteStore {
                        alloc,
                        store,
                        reserved: found.next,
                        durable: found.next,
                        is_pending: false,
                        is_shut: false,
                    },
                })
            }
            Err(why) => Err((why, store)),
        }
    }
}
