//! Reading tables whose rows are the items of one list, in the list's order.
//!
//! Rows that are not those of such a list give `NotARegister` or some list, and no clause says which. Each function is
//! refused with `NotARegister` or `NoMemory`.
ghost use Rattle.std.specs.Prelude.{◌≡◌, List, MatchResult, map};
ghost use Rattle.std.specs.List.{All};
ghost use Rattle.std.specs.Cmp.Lexicographic.{slice_cmp};
ghost use Rattle.std.specs.Ordering.{nat_cmp};
ghost use Rattle.vet_base.specs.Items.{SameItems};
ghost use Rattle.vet_base.specs.Keyed.{IsByKey};
ghost use Rattle.vet_base.specs.Words as words;
ghost use Rattle.vet_demand.specs.Policies.{IsInKeyOrder};
ghost use Rattle.vet_demand.specs.declared.policies.KeyedPolicy.{KeyedPolicy};
ghost use Rattle.vet_desk.specs.Desk.{own_name};
ghost use Rattle.vet_desk.specs.Review.{review_number};
ghost use Rattle.vet_desk.specs.declared.review.Review.{Review as ReviewValue};
ghost use Rattle.vet_item_rows.specs.DeskRows.{member_row, review_row};
ghost use Rattle.vet_item_rows.specs.HeldValues.{IsKeyedPolicy, IsReview};
ghost use Rattle.vet_item_rows.specs.SettingRows.{policy_row};
ghost use Rattle.vet_item_rows.specs.Values.{IsName};

use crate::read::from_row::read_rows;
use crate::read::read_error::ReadError;
use std::alloc::Global;
use vet_base::keyed::Keyed;
use vet_base::name::Name;
use vet_base::ranked::rank;
use vet_demand::policies::KeyedPolicy;
use vet_desk::review::Review;
use vet_tables::sequence::Row;

/// The policies of these rows.
pub fn policies(alloc: Global, rows: &[Row]) -> Result<Keyed<KeyedPolicy>, ReadError>
    ensures { (list : List KeyedPolicy) → IsInKeyOrder list → All IsKeyedPolicy list
        → SameItems rows.now (map policy_row list)
        → MatchResult result (λ k. k.items ≡ list) (λ e. e ≡ ReadError.NoMemory) }
{
    let policies = read_rows(alloc, rows)?;
    Ok(Keyed::of(alloc, policies)?)
}

/// The members of these rows.
pub fn members(alloc: Global, rows: &[Row]) -> Result<Keyed<Name>, ReadError>
    ensures { (list : List words.Name) → IsByKey (slice_cmp nat_cmp) own_name list → All IsName list
        → SameItems rows.now (map member_row list)
        → MatchResult result (λ k. k.items ≡ list) (λ e. e ≡ ReadError.NoMemory) }
{
    let members = read_rows(alloc, rows)?;
    Ok(Keyed::of(alloc, members)?)
}

/// The reviews of these rows.
pub fn reviews(alloc: Global, rows: &[Row]) -> Result<Vec<Review>, ReadError>
    ensures { (list : List ReviewValue) → IsByKey nat_cmp review_number list → All IsReview list
        → SameItems rows.now (map review_row list)
        → MatchResult result (λ v. v.items ≡ list) (λ e. e ≡ ReadError.NoMemory) }
{
    let reviews = read_rows(alloc, rows)?;
    Ok(rank(reviews)?)
}
