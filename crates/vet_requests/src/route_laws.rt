//! Laws about the routes of targets. They do nothing.
ghost use Rattle.std.specs.Prelude.{◌≡◌, ◌<◌, ◌∷◌, ◌++◌, false, ℕ, All, List, None, Some, codes};
ghost use Rattle.matchit.specs.Seek.{has_slash};
ghost use Rattle.vet_reports.specs.declared.report.Report.TheVariants as report;
ghost use Rattle.vet_requests.specs.Path.{route_at};
ghost use Rattle.vet_requests.specs.RouteTable.{routed_at};
ghost use Rattle.vet_requests.specs.declared.route.Route.TheVariants.{Report, StandingOf, Class, File, Project, Peer};
ghost use Rattle.vet_requests.specs.declared.route.Route.TheVariants.{Commands};

/// The router finds, for every target that is bytes, the route of the definition, and none if that gives none.
pub fn router_finds_the_paths()
    ensures { (target : List ℕ) → All (λ b. b < 256) target → routed_at target ≡ route_at target }
{}

/// Paths without parameters.
pub fn plain_paths_have_routes()
    ensures counts { route_at (codes "/counts") ≡ Some (Report report.Counts) }
    ensures standing { route_at (codes "/standing") ≡ Some (Report report.Standing) }
    ensures standing_csv { route_at (codes "/standing.csv") ≡ Some (Report report.StandingCsv) }
    ensures moves { route_at (codes "/moves") ≡ Some (Report report.Moves) }
    ensures desk { route_at (codes "/desk") ≡ Some (Report report.Desk) }
    ensures lapses { route_at (codes "/lapses") ≡ Some (Report report.Lapses) }
    ensures commands { route_at (codes "/commands") ≡ Some Commands }
{}

/// Paths with one parameter, which is at least one byte and has no slash.
pub fn paths_with_a_parameter_have_routes()
    ensures standing { (b : ℕ) (rest : List ℕ) → b < 256 → has_slash (b ∷ rest) ≡ false
        → route_at (codes "/standing/" ++ b ∷ rest) ≡ Some StandingOf }
    ensures files { (b : ℕ) (rest : List ℕ) → b < 256 → has_slash (b ∷ rest) ≡ false
        → route_at (codes "/files/" ++ b ∷ rest) ≡ Some File }
    ensures projects { (b : ℕ) (rest : List ℕ) → b < 256 → has_slash (b ∷ rest) ≡ false
        → route_at (codes "/projects/" ++ b ∷ rest) ≡ Some Project }
    ensures peers { (b : ℕ) (rest : List ℕ) → b < 256 → has_slash (b ∷ rest) ≡ false
        → route_at (codes "/peers/" ++ b ∷ rest) ≡ Some Peer }
{}

/// The path of a class, whose three parameters are such bytes.
pub fn path_of_a_class_has_its_route()
    ensures { (a : ℕ) («package» : List ℕ) (b : ℕ) (version : List ℕ) (c : ℕ) (criterion : List ℕ)
        → a < 256 → b < 256 → c < 256
        → has_slash (a ∷ «package») ≡ false → has_slash (b ∷ version) ≡ false → has_slash (c ∷ criterion) ≡ false
        → route_at (codes "/class/"
        ++ ((a ∷ «package») ++ 47 ∷ ((b ∷ version) ++ 47 ∷ (c ∷ criterion)))) ≡ Some Class }
{}

/// Targets by example: a class, a question mark, and targets that have no route.
pub fn routes_by_example()
    ensures class { route_at (codes "/class/serde/1.0.0/safe-to-run") ≡ Some Class }
    ensures query { route_at (codes "/standing/serde?all") ≡ Some StandingOf }
    ensures plain_query { route_at (codes "/counts?all") ≡ None }
    ensures empty_parameter { route_at (codes "/standing/") ≡ None }
    ensures empty_version { route_at (codes "/class/a//b") ≡ None }
    ensures further { route_at (codes "/class/a/1/b/c") ≡ None }
    ensures short { route_at (codes "/class/a/1") ≡ None }
    ensures behind { route_at (codes "/counts/") ≡ None }
    ensures root { route_at (codes "/") ≡ None }
    ensures whole { route_at (codes "http://a/counts") ≡ None }
    ensures case { route_at (codes "/Counts") ≡ None }
{}
