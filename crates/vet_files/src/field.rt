//! The value at a key of a table, by its type, and the faults that it can have.
ghost use Rattle.std.specs.Prelude.{◌≡◌, ◌⊎◌, List, ℕ, pos, Option, Some, IfOk, option_map, option_and_then};
ghost use Rattle.std.specs.Prelude.{string_bytes};
ghost use Rattle.toml.specs.Data.{Data, as_integer, boolean, get_member, integer, string};
ghost use Rattle.toml.specs.View.{table_view, view};
ghost use Rattle.vet_base.specs.Gives.{Gives, Told};
ghost use Rattle.vet_base.specs.Day.{day_text};
ghost use Rattle.vet_base.specs.Delta.{delta_text, read_delta};
ghost use Rattle.vet_base.specs.Name.{read_name, read_package_name};
ghost use Rattle.vet_base.specs.Req.{read_req};
ghost use Rattle.vet_base.specs.Version.{read_version, version_text};
ghost use Rattle.vet_files.specs.Field.{a_day, a_delta, a_reading, a_flag, a_name, a_package, a_requirement, a_text};
ghost use Rattle.vet_files.specs.Field.{a_user, a_version, day_of, day_of_date, fault, local_date, optional, required};
ghost use Rattle.vet_files.specs.Field.{user_of};
ghost use Rattle.vet_files.specs.ReadAgain.{IsReadAs};

pub mod maps;
pub mod sets;

use std::alloc::{AllocError, Global};
use toml::value::Datetime;
use toml::{Table, Value};
use vet_base::day::{Day, day_text_reads_back};
use vet_base::delta::{Delta, delta_text_reads_back};
use vet_base::key_text::KeyText;
use vet_base::name::{Name, PackageName};
use vet_base::refusal::Refusal;
use vet_base::req::Req;
use vet_base::text::Text;
use vet_base::version::{VetVersion, version_text_reads_back};
use vet_entries::user::User;

/// The refusal of the value at a key of a table, or `NoMemory` if memory runs out.
pub fn fault(alloc: Global, path: &str, key: &str) -> Refusal
    ensures { (result ≡ Refusal.NoMemory) ⊎ (result ≡ fault path.now key.now) }
{
    match (KeyText::told(alloc, path), KeyText::told(alloc, key)) {
        (Ok(path), Ok(key)) => Refusal::FieldRefused(path, key),
        _ => Refusal::NoMemory,
    }
}

/// A type of values at a key.
pub trait Field: Drop {
    /// The result of reading a value, given the path of its table and its key.
    ghost told: { List ℕ → List ℕ → Data → Told Self };

    /// The TOML value that is written for it.
    ghost written: { Self → Data };

    /// Reads a TOML value, or refuses it.
    fn read(alloc: Global, path: &str, key: &str, value: &Value) -> Result<Self, Refusal>
        ensures { Gives (λ v. v) (told path.now key.now (view value.now)) result };

    /// Writes it, so that it can be read back.
    fn write(&self, alloc: Global) -> Result<Value, AllocError>
        ensures value { IfOk result (λ v. view v ≡ written self.now) }
        ensures read { IfOk result (λ v. IsReadAs told (written self.now) self.now) };
}

/// The value at a key.
pub fn value_at<'a>(table: &'a Table, key: &str) -> Option<&'a Value>
    ensures { option_map (λ v. view v.now) result ≡ get_member key.now (table_view table.now) }
{
    table.get(key)
}

/// Reads the value at a key, if the table has the key.
pub fn optional<V: Field>(
    alloc: Global,
    path: &str,
    table: &Table,
    key: &str,
) -> Result<Option<V>, Refusal>
    ensures { Gives (λ v. v) (optional V.told path.now key.now (table_view table.now)) result }
{
    match value_at(table, key) {
        Some(value) => Ok(Some(V::read(alloc, path, key, value)?)),
        None => Ok(None),
    }
}

/// Reads the value at a required key. A missing key is refused (`fault`).
pub fn required<V: Field>(alloc: Global, path: &str, table: &Table, key: &str) -> Result<V, Refusal>
    ensures { Gives (λ v. v) (required V.told path.now key.now (table_view table.now)) result }
{
    match value_at(table, key) {
        Some(value) => V::read(alloc, path, key, value),
        None => Err(fault(alloc, path, key)),
    }
}

impl Field for bool {
    ghost told = { a_flag };

    ghost written = { boolean };

    fn read(alloc: Global, path: &str, key: &str, value: &Value) -> Result<bool, Refusal> {
        match value.as_bool() {
            Some(flag) => Ok(flag),
            None => Err(fault(alloc, path, key)),
        }
    }

    fn write(&self, alloc: Global) -> Result<Value, AllocError> {
        Ok(Value::Boolean(*self))
    }
}

impl Field for Text {
    ghost told = { a_text };

    ghost written = { string };

    fn read(alloc: Global, path: &str, key: &str, value: &Value) -> Result<Text, Refusal> {
        match value.as_str() {
            Some(text) => Text::parse(alloc, text),
            None => Err(fault(alloc, path, key)),
        }
    }

    fn write(&self, alloc: Global) -> Result<Value, AllocError> {
        Value::string(alloc, self.as_str())
    }
}

/// A type whose values are written as texts.
pub trait FromText: Drop {
    /// The value that a text is, if it is one.
    ghost reads: { List ℕ → Option Self };

    /// The text that is written for it.
    ghost printed: { Self → List ℕ };

    /// Reads a text.
    fn from_text(alloc: Global, text: &str) -> Result<Option<Self>, AllocError>
        ensures { IfOk result (λ v. v ≡ reads text.now) };

    /// Its text, which reads back as the value.
    fn to_text(&self, alloc: Global) -> Result<String, AllocError>
        ensures text { IfOk result (λ t. string_bytes t ≡ printed self.now) }
        ensures read { reads (printed self.now) ≡ Some self.now };
}

/// Reads a text as a value of such a type. Anything else is refused (`fault`).
pub fn reading<V: FromText>(
    alloc: Global,
    path: &str,
    key: &str,
    value: &Value,
) -> Result<V, Refusal>
    ensures { Gives (λ v. v) (a_reading V.reads path.now key.now (view value.now)) result }
{
    let Some(text) = value.as_str() else {
        return Err(fault(alloc, path, key));
    };
    match V::from_text(alloc, text)? {
        Some(reading) => Ok(reading),
        None => Err(fault(alloc, path, key)),
    }
}

/// Writes the text of a value of such a type.
fn write_text<V: FromText>(alloc: Global, value: &V) -> Result<Value, AllocError>
    ensures text { IfOk result (λ v. view v ≡ string (V.printed value.now)) }
    ensures read { IfOk result (λ v. IsReadAs (a_reading V.reads) (string (V.printed value.now)) value.now) }
{
    Ok(Value::String(value.to_text(alloc)?))
}

impl FromText for VetVersion {
    ghost reads = { read_version };

    ghost printed = { version_text };

    fn from_text(alloc: Global, text: &str) -> Result<Option<VetVersion>, AllocError> {
        VetVersion::read(alloc, text)
    }

    fn to_text(&self, alloc: Global) -> Result<String, AllocError> {
        version_text_reads_back(self);
        self.to_string(alloc)
    }
}

impl Field for VetVersion {
    ghost told = { a_version };

    ghost written = { λ v. string (version_text v) };

    fn read(alloc: Global, path: &str, key: &str, value: &Value) -> Result<VetVersion, Refusal> {
        reading(alloc, path, key, value)
    }

    fn write(&self, alloc: Global) -> Result<Value, AllocError> {
        write_text(alloc, self)
    }
}

impl FromText for Delta {
    ghost reads = { read_delta };

    ghost printed = { delta_text };

    fn from_text(alloc: Global, text: &str) -> Result<Option<Delta>, AllocError> {
        Delta::read(alloc, text)
    }

    fn to_text(&self, alloc: Global) -> Result<String, AllocError> {
        delta_text_reads_back(self);
        self.to_string(alloc)
    }
}

impl Field for Delta {
    ghost told = { a_delta };

    ghost written = { λ d. string (delta_text d) };

    fn read(alloc: Global, path: &str, key: &str, value: &Value) -> Result<Delta, Refusal> {
        reading(alloc, path, key, value)
    }

    fn write(&self, alloc: Global) -> Result<Value, AllocError> {
        write_text(alloc, self)
    }
}

impl FromText for Req {
    ghost reads = { read_req };

    ghost printed = { λ r. r };

    fn from_text(alloc: Global, text: &str) -> Result<Option<Req>, AllocError> {
        Req::read(alloc, text)
    }

    fn to_text(&self, alloc: Global) -> Result<String, AllocError> {
        String::from_str(alloc, self.as_str())
    }
}

impl Field for Req {
    ghost told = { a_requirement };

    ghost written = { string };

    fn read(alloc: Global, path: &str, key: &str, value: &Value) -> Result<Req, Refusal> {
        reading(alloc, path, key, value)
    }

    fn write(&self, alloc: Global) -> Result<Value, AllocError> {
        write_text(alloc, self)
    }
}

impl FromText for Name {
    ghost reads = { read_name };

    ghost printed = { λ n. n };

    fn from_text(alloc: Global, text: &str) -> Result<Option<Name>, AllocError> {
        Name::read(alloc, text)
    }

    fn to_text(&self, alloc: Global) -> Result<String, AllocError> {
        String::from_str(alloc, self.as_str())
    }
}

impl Field for Name {
    ghost told = { a_name };

    ghost written = { string };

    fn read(alloc: Global, path: &str, key: &str, value: &Value) -> Result<Name, Refusal> {
        reading(alloc, path, key, value)
    }

    fn write(&self, alloc: Global) -> Result<Value, AllocError> {
        write_text(alloc, self)
    }
}

impl FromText for PackageName {
    ghost reads = { read_package_name };

    ghost printed = { λ n. n };

    fn from_text(alloc: Global, text: &str) -> Result<Option<PackageName>, AllocError> {
        PackageName::read(alloc, text)
    }

    fn to_text(&self, alloc: Global) -> Result<String, AllocError> {
        String::from_str(alloc, self.as_str())
    }
}

impl Field for PackageName {
    ghost told = { a_package };

    ghost written = { string };

    fn read(alloc: Global, path: &str, key: &str, value: &Value) -> Result<PackageName, Refusal> {
        reading(alloc, path, key, value)
    }

    fn write(&self, alloc: Global) -> Result<Value, AllocError> {
        write_text(alloc, self)
    }
}

impl Field for Day {
    ghost told = { a_day };

    ghost written = { λ d. string (day_text d) };

    fn read(alloc: Global, path: &str, key: &str, value: &Value) -> Result<Day, Refusal> {
        match day_of(value) {
            Some(day) => Ok(day),
            None => Err(fault(alloc, path, key)),
        }
    }

    fn write(&self, alloc: Global) -> Result<Value, AllocError> {
        day_text_reads_back(*self);
        Ok(Value::String(self.to_string(alloc)?))
    }
}

/// The day that a value is, as a text or a local date, if it is one.
pub fn day_of(value: &Value) -> Option<Day>
    ensures { result ≡ day_of (view value.now) }
{
    match value {
        Value::String(text) => Day::read(text.as_str()),
        Value::Datetime(moment) => local_day(moment),
        _ => None,
    }
}

/// The day of a local date.
fn local_day(moment: &Datetime) -> Option<Day>
    ensures { result ≡ option_and_then day_of_date (local_date moment.now) }
{
    match (moment.date, moment.time, moment.offset) {
        (Some(date), None, None) => Day::from_parts(date.year, date.month, date.day),
        _ => None,
    }
}

impl Field for User {
    ghost told = { a_user };

    ghost written = { λ u. integer (pos u) };

    fn read(alloc: Global, path: &str, key: &str, value: &Value) -> Result<User, Refusal> {
        match user_of(value) {
            Some(user) => Ok(user),
            None => Err(fault(alloc, path, key)),
        }
    }

    fn write(&self, alloc: Global) -> Result<Value, AllocError> {
        // A number of a user is at most 2^63 - 1.
        Ok(Value::Integer(self.number() as i64))
    }
}

/// The user whose number a value is, if it is one.
pub fn user_of(value: &Value) -> Option<User>
    ensures { result ≡ option_and_then user_of (as_integer (view value.now)) }
{
    let number = value.as_integer()?;
    match u64::try_from(number) {
        Ok(number) => User::new(number),
        Err(_) => None,
    }
}
