//! Domain names and scopes, made label by label.

use nb_examples_words::line::Line;
use nb_examples_words::{called, said};
use nb_names::{DomainName, Name, Scope, domain_text};

/// The domain name of all labels that are left.
pub fn domain_of(line: &mut Line<'_>) -> DomainName {
    let mut domain = DomainName::root();
    for word in line.rest().split_whitespace() {
        let label = line.bytes_of(word);
        if domain.push(label.as_slice()).is_err() {
            line.bad_words();
        }
    }
    domain
}

/// The scope of all labels that are left.
pub fn scope_of(line: &mut Line<'_>) -> Scope {
    let mut scope = Scope::empty();
    for word in line.rest().split_whitespace() {
        let label = line.bytes_of(word);
        if scope.push(label.as_slice()).is_err() {
            line.bad_words();
        }
    }
    scope
}

/// `labels LABEL ..`: how many labels the domain name has, whether it is empty, in how many bytes
/// it is spelled, each label by its place, and what stands at the place after the last.
pub fn labels(line: &mut Line<'_>) {
    let name = domain_of(line);
    let counts = called!(line, (name.len(), name.is_empty(), name.spelled_len()));
    line.says(&counts);
    for place in 0..=name.len() {
        said!(line, says, name.label(place));
    }
}

/// `push LABEL ..`: what a domain name answers to each label that is added to it, and in how many
/// bytes it is spelled then.
pub fn pushed(line: &mut Line<'_>) {
    let mut domain = DomainName::root();
    for word in line.rest().split_whitespace() {
        let label = line.bytes_of(word);
        said!(line, answers, domain.push(label.as_slice()));
        said!(line, says, domain.spelled_len());
    }
}

/// `push_scope LABEL ..`: the same of the scope of a name.
pub fn pushed_to_scope(line: &mut Line<'_>) {
    let mut scope = Scope::empty();
    for word in line.rest().split_whitespace() {
        let label = line.bytes_of(word);
        said!(line, answers, scope.push(label.as_slice()));
        let name = called!(line, Name::new([b' '; 16], scope.copied()));
        said!(line, says, name.scope().as_domain().spelled_len());
    }
}

/// `from_domain LABEL ..`: the name that has these labels, or the place in their spelling at which
/// they are none's.
pub fn from_domain(line: &mut Line<'_>) {
    let domain = domain_of(line);
    said!(line, says, Name::from_domain(&domain));
}

/// `domain_text LABEL ..`: the text of the domain name of these labels.
pub fn written(line: &mut Line<'_>) {
    let domain = domain_of(line);
    said!(line, tells, domain_text(line.alloc(), &domain));
}
