// Small facts of translation, each about one form.
ghost use Rattle.std.specs.Prelude.{◌≡◌, ℕ, List, [], ◌∷◌, ◌++◌, Some, None, true, false, codes};
ghost use Rattle.core_program.specs.Core as c;
ghost use Rattle.core_program.specs.Program as p;
ghost use Rattle.core_program.specs.declared.form.Way.TheVariants as way;
ghost use Rattle.core_program.specs.declared.program.FunctionKind.TheVariants.{Generative};
ghost use Rattle.dart_base.specs.declared.place.Place.{Place};
ghost use Rattle.dart_ir.specs.Ty.{class, dynamic, function, nil, cons, unnamed};
ghost use Rattle.dart_ir.specs.declared.kind.Shape.TheVariants as shape;
ghost use Rattle.dart_ir.specs.declared.kind.SiteKind.TheVariants as kind;
ghost use Rattle.dart_ir.specs.declared.value.Value.TheVariants as v;
ghost use Rattle.dart_tree.specs.Tree as t;
ghost use Rattle.dart_tree.specs.declared.expression.Atom.TheVariants as a;
ghost use Rattle.dart_tree.specs.declared.statement.Jump.TheVariants as j;
ghost use Rattle.translation.specs.Applications.{forwarder};
ghost use Rattle.translation.specs.Classes.{super_of};
ghost use Rattle.translation.specs.Expressions.{new_form};
ghost use Rattle.translation.specs.Productions.{expr, stmt};
ghost use Rattle.translation.specs.References.{truth, by_place, block, row, variable};
ghost use Rattle.translation.specs.Surroundings.{Text, Ty, Core};
ghost use Rattle.translation.specs.Types.{tys};
ghost use Rattle.translation.specs.Walk.{State, went, refused, bad_label, bad_word};

/// `break;` outside of every loop and switch has no target.
pub fn break_needs_a_target()
    ensures { (st : State) (word semicolon : Place) →
        stmt (t.jump (j.Break word None semicolon)) [] (record st { targets = [] })
        ≡ refused (bad_label word) }
{}

/// `this` where there is no instance.
pub fn this_needs_an_instance()
    ensures { (st : State) (word : Place) →
        expr (t.plain (t.primary (t.atom (a.This word))) t.no_cascades)
        (record st { inside = record st.inside { has_instance = false } })
        ≡ refused (bad_word word) }
{}

/// `while (true) break;` is a loop whose body leaves it, and whose condition is tested twice.
pub fn while_is_a_loop()
    ensures { (st : State) (word opening test closing jump semicolon : Place) →
        stmt
        (t.loop (t.while_loop word opening
        (t.plain (t.primary (t.atom (a.True test))) t.no_cascades) closing
        (t.jump (j.Break jump None semicolon))))
        [] (record st { targets = []; scopes = []; sites = [] })
        ≡ went
        (c.at word (c.loop 0 []
        (c.given (c.at test (c.unary (c.check 1)
        (c.at test (c.unary (c.check 0) (truth test true))))))
        c.missing
        (c.given (c.at jump (c.leaf (c.jump way.Break 0))))) ∷ [])
        (record st {
          targets = [];
          scopes = [];
          sites = record {
            place = test;
            kind = kind.Condition;
            required = None;
            annotated = false;
          } ∷ record {
            place = test;
            kind = kind.NullCondition;
            required = None;
            annotated = false;
          } ∷ [];
        }) }
{}

/// `new` of a class with a bound asks at its site for the type whose arguments are tested.
pub fn bounds_ask_for_the_type()
    ensures { (st : State) (place : Place) (n constructor : ℕ) (types : List Ty) →
        new_form place n constructor types (by_place [])
        (record st { tables = record st.tables { is_bounded = λ k. true }; sites = [] })
        ≡ went
        (c.at place (c.unary (c.check 0) (c.at place (c.new n constructor types c.no_cores []))))
        (record st {
          tables = record st.tables { is_bounded = λ k. true };
          sites = record {
            place = place;
            kind = kind.Bound;
            required = Some (class n (tys types));
            annotated = false;
          } ∷ [];
        }) }
{}

/// What `super(..)` hands to the constructor of `Object` is evaluated, and nothing is called.
pub fn object_is_handed_arguments()
    ensures { (st : State) (word : Place) (first second : Core) →
        super_of word (Some 0) None (λ st. went (by_place (first ∷ second ∷ [])) st) st
        ≡ went (first ∷ second ∷ []) st }
{}

/// A forwarding constructor hands its parameter on, whose variable comes behind those of the fields' initial values, and
/// whose site has no type.
pub fn forwarders_hand_on()
    ensures { (st : State) (x : p.Class Text) (site : p.Site Text) →
        forwarder
        (record { class = 3; arguments = Some []; name = []; fields = []; count = 2 }) x []
        (record {
          number = 7;
          id = codes "named";
          parameters = record {
            var = 5;
            name = codes "a";
            shape = shape.Required;
            default = v.Null;
            site = 0;
          } ∷ [];
        })
        (record st {
          tables = record st.tables { superclass = λ n. Some 1 };
          declarations = 9;
          sites = site ∷ [];
        })
        ≡ went
        (record {
          number = 9;
          id = codes "named";
          parameters = record {
            var = 2;
            name = codes "a";
            shape = shape.Required;
            default = v.Null;
            site = 1;
          } ∷ [];
        })
        (record st {
          tables = record st.tables { superclass = λ n. Some 1 };
          declarations = 10;
          sites = site ∷ record {
            place = site.place;
            kind = kind.Param;
            required = None;
            annotated = false;
          } ∷ [];
          functions = st.functions ++ record {
            number = 9;
            made = record {
              name = codes "named";
              kind = Generative;
              class = Some 3;
              parameters = record {
                var = 2;
                name = codes "a";
                shape = shape.Required;
                default = v.Null;
                site = 1;
              } ∷ [];
              vars = 3;
              cells = [];
              captures = [];
              signature = function dynamic (cons dynamic nil) nil unnamed;
              body = c.given (block x.place
                  (row x.place (c.super_new 7) (by_place (variable x.place 2 ∷ [])) ∷ []));
            };
          } ∷ [];
        }) }
{}
