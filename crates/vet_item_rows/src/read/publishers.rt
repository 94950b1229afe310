//! Reading the rows of publisher records.
ghost use Rattle.vet_base.specs.Words.{Name};
ghost use Rattle.vet_entries.specs.declared.publisher.Publisher.{Publisher as PublisherValue};
ghost use Rattle.vet_item_rows.specs.ReadBack.{IsWritten, Reads};
ghost use Rattle.vet_item_rows.specs.ReadFacts.{IsFiledPublisher, filed_publisher_row};
ghost use Rattle.vet_item_rows.specs.declared.read.gathered.WithKey.{WithKey as WithKeyValue};

use crate::read::columns::{day, optional_text, package_name, user, version};
use crate::read::from_row::FromRow;
use crate::read::gathered::WithKey;
use crate::read::read_error::ReadError;
use std::alloc::Global;
use vet_base::name::PackageName;
use vet_entries::publisher::Publisher;
use vet_tables::cell::Cell;
use vet_tables::sequence::Row;

impl FromRow for WithKey<PackageName, Publisher> {
    ghost stands_for = { IsWritten IsFiledPublisher filed_publisher_row };

    fn from_row(alloc: Global, row: &Row) -> Result<WithKey<PackageName, Publisher>, ReadError> {
        let [Cell::Text(package), ..] = row.as_slice() else {
            return Err(ReadError::NotARegister);
        };
        Ok(WithKey {
            key: package_name(alloc, package.as_str())?,
            item: publisher(alloc, row)?,
        })
    }
}

// The record of a row, of whatever package.
fn publisher(alloc: Global, row: &Row) -> Result<Publisher, ReadError>
    ensures { (f : WithKeyValue Name PublisherValue) → IsWritten IsFiledPublisher filed_publisher_row row.now f
        → Reads result f.item }
{
    let [
        _,
        Cell::Text(of_version),
        Cell::Int(of_user),
        Cell::Int(on_day),
        Cell::Blob(login),
        Cell::Blob(name),
    ] = row.as_slice()
    else {
        return Err(ReadError::NotARegister);
    };
    let user = user(*of_user)?;
    let day = day(*on_day)?;
    Ok(Publisher {
        version: version(alloc, of_version.as_str())?,
        user,
        day,
        login: optional_text(alloc, login.as_slice())?,
        name: optional_text(alloc, name.as_slice())?,
    })
}
