//! Replies that show a register.
//!
//! **Each reply is the one that its definition gives for the register's state and the target's parameters. Only the
//! layout of a TOML body is free.**
ghost use Rattle.std.specs.Option.{option_copied};
ghost use Rattle.std.specs.Prelude.{◌≡◌, ◌⊎◌, IfErr, IfOk, Some, string_bytes};
ghost use Rattle.vet_base.specs.Gives.{Gives};
ghost use Rattle.vet_documents.specs.RegisterFile.{file_named};
ghost use Rattle.vet_graph.specs.Standing.{class_in};
ghost use Rattle.vet_http.specs.Shown.{IsFile, IsShown, class_line, class_told, csv, lines, package_standing_told};
ghost use Rattle.vet_http.specs.Shown.{pairs_of, report_reply, table_of, table_told, toml};
ghost use Rattle.vet_http.specs.Told.{refusal_reply};
ghost use Rattle.vet_register.specs.Held.{project_at};
ghost use Rattle.vet_register.specs.State.{standing};
ghost use Rattle.vet_reports.specs.StandingText.{standing_text};
ghost use Rattle.vet_requests.specs.Parameter.{first_parameter};

use std::alloc::Global;
use vet_base::name::{Name, PackageName};
use vet_base::refusal::Refusal;
use vet_base::version::VetVersion;
use vet_demand::project::NamedProject;
use vet_demand::table_writer::write_project;
use vet_documents::register_file::{RegisterFile, file_text};
use vet_graph::class::Class;
use vet_graph::keeper::Keeper;
use vet_register::register::Register;
use vet_reports::report::{Layout, Report};
use vet_reports::standing_text::{Filter, standing_text};
use vet_requests::content_type::ContentType;
use vet_requests::parameter::{first_parameter, second_parameter, third_parameter};
use vet_requests::reply::Reply;
use vet_requests::route::Shown;
use vet_requests::status::Status;

/// The reply that shows something of a register for a target. Refused: `BadName` or `BadVersion` for the first
/// parameter at fault, and `NoMemory`.
pub(crate) fn show<K: Keeper>(
    alloc: Global,
    register: &Register<K>,
    shown: Shown,
    target: &str,
) -> Result<Reply, Refusal>
    ensures shown { IfOk result (λ r. IsShown shown target.now register.now.state r) }
    ensures refused { IfErr result (λ e.
        (e ≡ Refusal.NoMemory) ⊎ IsShown shown target.now register.now.state (refusal_reply e)) }
{
    match shown {
        Shown::Report(report) => show_report(alloc, register, report),
        Shown::StandingOf => show_package(alloc, register, target),
        Shown::Class => show_class(alloc, register, target),
        Shown::File => show_file(alloc, register, target),
        Shown::Project => show_project(alloc, register, target),
    }
}

// The reply with a report, in the report's own layout.
fn show_report<K: Keeper>(
    alloc: Global,
    register: &Register<K>,
    report: Report,
) -> Result<Reply, Refusal>
    ensures reply { IfOk result (λ r. r ≡ report_reply report register.now.state) }
    ensures memory { IfErr result (λ e. e ≡ Refusal.NoMemory) }
{
    let text = report.text(alloc, register)?;
    match report.layout() {
        Layout::Lines => lines(alloc, text),
        Layout::Csv => csv(alloc, text),
    }
}

// The reply with lines for people.
fn lines(alloc: Global, text: String) -> Result<Reply, Refusal>
    ensures reply { IfOk result (λ r. r ≡ lines (string_bytes text)) }
    ensures memory { IfErr result (λ e. e ≡ Refusal.NoMemory) }
{
    Ok(Reply::with(alloc, Status::Ok, ContentType::Text, text.as_str())?)
}

fn csv(alloc: Global, text: String) -> Result<Reply, Refusal>
    ensures reply { IfOk result (λ r. r ≡ csv (string_bytes text)) }
    ensures memory { IfErr result (λ e. e ≡ Refusal.NoMemory) }
{
    Ok(Reply::with(alloc, Status::Ok, ContentType::Csv, text.as_str())?)
}

// The standing of a package.
fn show_standing<K: Keeper>(
    alloc: Global,
    register: &Register<K>,
    package: PackageName,
) -> Result<Reply, Refusal>
    ensures reply { IfOk result (λ r. r ≡ lines (standing_text (pairs_of «package») register.now.state)) }
    ensures memory { IfErr result (λ e. e ≡ Refusal.NoMemory) }
{
    let filter = Filter {
        package: Some(package),
        class: None,
    };
    lines(alloc, standing_text(alloc, register, &filter)?)
}

// The standing of the package that the parameter names.
fn show_package<K: Keeper>(
    alloc: Global,
    register: &Register<K>,
    target: &str,
) -> Result<Reply, Refusal>
    ensures { Gives (λ r. r) (package_standing_told target.now register.now.state) result }
{
    let name = PackageName::parse(alloc, first_parameter(target))?;
    show_standing(alloc, register, name)
}

// The class of the pair that the parameters name.
fn show_class<K: Keeper>(
    alloc: Global,
    register: &Register<K>,
    target: &str,
) -> Result<Reply, Refusal>
    ensures { Gives (λ r. r) (class_told target.now register.now.state) result }
{
    let package = PackageName::parse(alloc, first_parameter(target))?;
    let version = VetVersion::parse(alloc, second_parameter(target))?;
    let criterion = Name::parse(alloc, third_parameter(target))?;
    class_reply(alloc, register, &package, &version, &criterion)
}

// The class of a pair.
fn class_reply<K: Keeper>(
    alloc: Global,
    register: &Register<K>,
    package: &PackageName,
    version: &VetVersion,
    criterion: &Name,
) -> Result<Reply, Refusal>
    ensures reply { IfOk result (λ r. r ≡ lines (class_line (class_in (standing register.now.state)
        (record { «package» = «package».now; version = version.now; criterion = criterion.now })))) }
    ensures memory { IfErr result (λ e. e ≡ Refusal.NoMemory) }
{
    let class = register.class(package, version, criterion);
    let line = class_line(class);
    Ok(Reply::with(alloc, Status::Ok, ContentType::Text, line)?)
}

// The line of a class, or of a pair that isn't demanded.
fn class_line(class: Option<Class>) -> &'static str
    ensures { result.now ≡ class_line class }
{
    match class {
        Some(Class::Conflicting) => "conflicting\n",
        Some(Class::Full) => "full\n",
        Some(Class::Partial) => "partial\n",
        Some(Class::Exempted) => "exempted\n",
        Some(Class::Unvetted) => "unvetted\n",
        None => "none\n",
    }
}

// The file that the parameter names.
fn show_file<K: Keeper>(
    alloc: Global,
    register: &Register<K>,
    target: &str,
) -> Result<Reply, Refusal>
    ensures reply { IfOk result (λ r.
        IsFile (file_named (first_parameter target.now)) register.now.state r) }
    ensures memory { IfErr result (λ e. e ≡ Refusal.NoMemory) }
{
    match RegisterFile::named(first_parameter(target)) {
        Some(file) => show_named_file(alloc, register, file),
        None => Ok(Reply::plain(alloc, Status::NotFound)?),
    }
}

fn show_named_file<K: Keeper>(
    alloc: Global,
    register: &Register<K>,
    file: RegisterFile,
) -> Result<Reply, Refusal>
    ensures reply { IfOk result (IsFile (Some file) register.now.state) }
    ensures memory { IfErr result (λ e. e ≡ Refusal.NoMemory) }
{
    let text = file_text(alloc, file, register)?;
    Ok(Reply::with(alloc, Status::Ok, ContentType::Toml, text.as_str())?)
}

// The dependency table of the project that the parameter names.
fn show_project<K: Keeper>(
    alloc: Global,
    register: &Register<K>,
    target: &str,
) -> Result<Reply, Refusal>
    ensures { Gives (λ r. r) (table_told target.now register.now.state) result }
{
    let name = PackageName::parse(alloc, first_parameter(target))?;
    show_table(alloc, project_at(register.projects(), &name))
}

// The dependency table of a project, or 404 if there is none.
fn show_table(alloc: Global, project: Option<&NamedProject>) -> Result<Reply, Refusal>
    ensures reply { IfOk result (λ r. r ≡ table_of (option_copied project.entry)) }
    ensures memory { IfErr result (λ e. e ≡ Refusal.NoMemory) }
{
    match project {
        Some(it) => csv(alloc, write_project(alloc, &it.project)?),
        None => Ok(Reply::plain(alloc, Status::NotFound)?),
    }
}

// The project of a name, if one is held.
fn project_at<'p>(projects: &'p [NamedProject], name: &PackageName) -> Option<&'p NamedProject>
    ensures { option_copied result ≡ project_at projects.now name.now }
{
    'projects: for project in projects {
        if project.name.cmp(name).is_eq() {
            return Some(project);
        }
    }
    None
}
